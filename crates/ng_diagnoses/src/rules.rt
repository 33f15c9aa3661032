//! What each refusal says in a sentence, and what can be done about it.

use crate::refused::Kind;

/// A sentence about a name: what stands before the name, and what behind it.
pub(crate) type Sentence = (&'static str, &'static str);

// The sentences of the rules on names and on what a declaration holds.
fn rule_on_names(number: u8) -> Option<Sentence> {
    Some(match number {
        8 => (
            "there is no pipe `",
            "`, or it takes another number of arguments",
        ),
        9 => ("the pipe `", "` reaches itself"),
        10 => ("the getter `", "` reaches itself through getters"),
        11 => ("the name `", "` is not in scope"),
        12 => ("`", "` is used before its `@let`"),
        13 => ("a binding can't read the reference `", "`"),
        14 => ("a binding or a getter can't read the query `", "`"),
        15 => (
            "`",
            "` can't be set, since it is no field of this declaration",
        ),
        16 => ("`", "` can't be read or called like this"),
        19 => ("`init` can't use `", "`"),
        _ => return None,
    })
}

// The sentences of the rules on templates.
fn rule_on_templates(number: u8) -> Option<Sentence> {
    Some(match number {
        3 => ("no component's selector matches `<", ">`"),
        4 => ("two components match `<", ">`"),
        5 => (
            "`",
            "` is neither an input of this element's component nor a property",
        ),
        6 => ("the required input `", "` is not given"),
        7 => (
            "`",
            "` is neither an output of this element's component nor an event",
        ),
        17 => ("a second `ng-content` for the slot `", "`"),
        18 => ("`<", ">` can't stand in a `@for` or an `ng-template`"),
        25 => ("`<", ">` can't have this attribute"),
        26 => ("no `ng-template` in scope has the reference `", "`"),
        27 => ("a second `@default`, in `", "`"),
        28 => ("a `@for` without `track`, in `", "`"),
        30 => ("`$event` stands outside of a listener, in `", "`"),
        _ => return None,
    })
}

// The sentences of the other rules.
fn rule_on_declarations(number: u8) -> Sentence {
    match number {
        1 => ("`", "` can't be the root component"),
        2 => ("the name `", "` stands twice"),
        20 => ("`", "` is no service, component or token"),
        21 => ("the flag `", "` clashes with one before it"),
        22 => ("`", "` can't be provided like this"),
        23 => ("the environment `", "` stands under itself"),
        24 => ("there is no environment `", "`"),
        29 => ("there is no component `", "`"),
        _ => ("`", "` breaks a rule"),
    }
}

/// What a refusal says of its name; without a name the two parts are one sentence.
pub(crate) fn sentence_for(kind: Kind, is_app: bool) -> Sentence {
    match kind {
        Kind::TooLong if is_app => ("an application has at most 1,048,576 bytes", ""),
        Kind::TooLong => ("a list of events has at most 4,194,304 bytes", ""),
        Kind::Utf8 => ("the file is not UTF-8", ""),
        Kind::Syntax if is_app => (
            "this is no application of the grammar: the reader stopped here",
            "",
        ),
        Kind::Syntax => ("the file is not JSON", ""),
        Kind::Limit => (
            "a limit of the language is passed: the reader stopped here",
            "",
        ),
        Kind::NotBuilt if is_app => ("this form can't be run yet", ""),
        Kind::NotBuilt => (
            "the file is no list of at most 10,000 clicks, and nothing else can be run yet",
            "",
        ),
        Kind::Rule(number) => match rule_on_names(number) {
            Some(sentence) => sentence,
            None => rule_on_templates(number).unwrap_or(rule_on_declarations(number)),
        },
    }
}

// What can be done where a rule on names is broken.
fn help_on_names(number: u8) -> Option<&'static str> {
    match number {
        9 | 10 => Some("a pipe or a getter can't depend on itself: leave one of the steps out"),
        12 => Some("move the `@let` before the place where its name is used"),
        13 => Some(
            "a reference can be used in listeners alone: read an input, a field or a signal here",
        ),
        14 => Some(
            "a query can be used in listeners and methods alone: read a field or a signal here",
        ),
        15 => Some(
            "a field is set by `=`; a signal is set by `.set(..)`, and an input by the component's host alone",
        ),
        16 => Some(
            "a signal is read by its name and `()`, without arguments; methods and outputs are called by statements",
        ),
        19 => Some("`init` can use own fields, signals and inputs, and built-in pipes"),
        _ => None,
    }
}

// What can be done where a rule on templates is broken.
fn help_on_templates(number: u8) -> Option<&'static str> {
    match number {
        4 => Some("change one of the selectors, or write it with `:not(..)`"),
        6 => Some("give it as `name=\"text\"` or `[name]=\"expression\"`"),
        17 => Some("show a slot once, or in different branches of one `@if` or `@switch`"),
        18 => Some("take the `ng-content` out of the block"),
        25 => Some(
            "`ng-content` has a `select`, `ng-container` static attributes and an outlet, `ng-template` one reference and `let-`",
        ),
        27 => Some("leave one `@default` out"),
        28 => Some("write `; track` and what tells the rows apart, as `track item.id`"),
        30 => Some("`$event` is what an event or an output gives, and stands in listeners alone"),
        _ => None,
    }
}

// What can be done where a rule on declarations is broken.
fn help_on_declarations(number: u8) -> Option<&'static str> {
    match number {
        1 => Some(
            "`bootstrap NAME;` names a component whose selector begins with a tag and which has no required input",
        ),
        2 => Some("rename one of the two, or leave it out"),
        21 => Some("write a flag once, and `self` without `skipself` and `host`"),
        22 => Some(
            "a token or a component is provided by `as`, `=` or `from`, and what stands after `as` is a service",
        ),
        23 => Some("let one of the environments stand under `root`"),
        _ => None,
    }
}

/// What can be done about a refusal, where that is plain.
pub(crate) fn help_for(kind: Kind, is_app: bool) -> Option<&'static str> {
    match kind {
        Kind::Limit => Some("docs/LANGUAGE.md has the limits"),
        Kind::NotBuilt if is_app => Some(
            "`ivy check` reads the whole language; docs/LANGUAGE.md says what can be run today",
        ),
        Kind::NotBuilt => Some("write `[{\"on\": \"click\", \"tag\": \"button\"}]`"),
        Kind::Rule(number) => match help_on_names(number) {
            Some(help) => Some(help),
            None => match help_on_templates(number) {
                Some(help) => Some(help),
                None => help_on_declarations(number),
            },
        },
        _ => None,
    }
}
