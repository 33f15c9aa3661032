//! The words that declarations and members begin with, and those of flags.

ghost use Rattle.std.specs.Prelude.{◌≡◌};
ghost use Rattle.ng_declare.specs.Words as spec;

use ng_ast::Flag;
use ng_tokens::same_text;

/// What a declaration begins with.
#[derive(Clone, Copy)]
pub enum DeclWord {
    Component,
    Service,
    Pipe,
    Environment,
    Token,
    Bootstrap,
}

/// What a member begins with.
#[derive(Clone, Copy)]
pub enum MemberWord {
    Field,
    Signal,
    Get,
    Method,
    Init,
    Inject,
    Input,
    Required,
    Output,
    Provide,
    ViewProvide,
    ViewChild,
    ViewChildren,
    ContentChild,
    ContentChildren,
}

/// What members belong to.
#[derive(Clone, Copy)]
pub enum Scope {
    Service,
    Component,
}

pub fn decl_word(name: &[u8]) -> Option<DeclWord>
    ensures { result ≡ spec.decl_word name.now }
{
    if same_text(b"component", name) {
        Some(DeclWord::Component)
    } else if same_text(b"service", name) {
        Some(DeclWord::Service)
    } else if same_text(b"pipe", name) {
        Some(DeclWord::Pipe)
    } else if same_text(b"environment", name) {
        Some(DeclWord::Environment)
    } else if same_text(b"token", name) {
        Some(DeclWord::Token)
    } else if same_text(b"bootstrap", name) {
        Some(DeclWord::Bootstrap)
    } else {
        None
    }
}

// What a member of a service begins with, and so may one of a component.
fn service_word(name: &[u8]) -> Option<MemberWord>
    ensures { result ≡ spec.service_word name.now }
{
    if same_text(b"field", name) {
        Some(MemberWord::Field)
    } else if same_text(b"signal", name) {
        Some(MemberWord::Signal)
    } else if same_text(b"get", name) {
        Some(MemberWord::Get)
    } else if same_text(b"method", name) {
        Some(MemberWord::Method)
    } else if same_text(b"init", name) {
        Some(MemberWord::Init)
    } else if same_text(b"inject", name) {
        Some(MemberWord::Inject)
    } else {
        None
    }
}

// What a member of a component alone begins with.
fn own_word(name: &[u8]) -> Option<MemberWord>
    ensures { result ≡ spec.own_word name.now }
{
    if same_text(b"input", name) {
        Some(MemberWord::Input)
    } else if same_text(b"required", name) {
        Some(MemberWord::Required)
    } else if same_text(b"output", name) {
        Some(MemberWord::Output)
    } else if same_text(b"provide", name) {
        Some(MemberWord::Provide)
    } else if same_text(b"viewprovide", name) {
        Some(MemberWord::ViewProvide)
    } else if same_text(b"viewchild", name) {
        Some(MemberWord::ViewChild)
    } else if same_text(b"viewchildren", name) {
        Some(MemberWord::ViewChildren)
    } else if same_text(b"contentchild", name) {
        Some(MemberWord::ContentChild)
    } else if same_text(b"contentchildren", name) {
        Some(MemberWord::ContentChildren)
    } else {
        None
    }
}

impl Scope {
    /// What a member begins with.
    pub fn word_of(self, name: &[u8]) -> Option<MemberWord>
        ensures { result ≡ spec.word_of self name.now }
    {
        match (service_word(name), self) {
            (Some(word), _) => Some(word),
            (None, Scope::Service) => None,
            (None, Scope::Component) => own_word(name),
        }
    }
}

pub fn flag_word(name: &[u8]) -> Option<Flag>
    ensures { result ≡ spec.flag_word name.now }
{
    if same_text(b"optional", name) {
        Some(Flag::Optional)
    } else if same_text(b"self", name) {
        Some(Flag::Own)
    } else if same_text(b"skipself", name) {
        Some(Flag::Skip)
    } else if same_text(b"host", name) {
        Some(Flag::Host)
    } else {
        None
    }
}
