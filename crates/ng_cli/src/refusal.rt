ghost use Rattle.std.specs.Prelude.{◌≡◌, IfOk, codes, string_bytes};
ghost use Rattle.ng_cli.specs.Refusals.{title, line_at, break_line};
ghost use Rattle.ng_cli.specs.Steps.{line_of};

use ng_ast::{Place, Rule};
use std::alloc::{AllocError, Global};

/// Why a file is refused.
#[derive(Debug, Drop)]
pub enum Refusal {
    /// The application has more than 1,048,576 bytes.
    AppTooLong,
    /// The application isn't UTF-8.
    AppUtf8,
    /// The application has no reading; the reader stopped at this place.
    AppSyntax(Place),
    /// The application passes a limit; the reader stopped at this place.
    AppLimit(Place),
    /// The application breaks a rule.
    AppBroken(ng_ast::Refusal),
    /// The application is sound, and has a form that isn't built at this place.
    AppNotBuilt(Place),
    /// The event file has more than 4,194,304 bytes.
    EventsTooLong,
    /// The event file isn't JSON.
    EventsSyntax,
    /// The event file has a form that isn't built.
    EventsNotBuilt,
}

// The number and the name of a rule.
fn title(rule: Rule) -> &'static str
    ensures { result.now ≡ title rule }
{
    match rule {
        Rule::Syntax => "Syntax",
        Rule::Limit => "Limit",
        Rule::N01 => "N01 NoRoot",
        Rule::N02 => "N02 DuplicateName",
        Rule::N03 => "N03 UnknownElement",
        Rule::N04 => "N04 MultipleComponents",
        Rule::N05 => "N05 UnknownInput",
        Rule::N06 => "N06 RequiredInput",
        Rule::N07 => "N07 UnknownOutput",
        Rule::N08 => "N08 UnknownPipe",
        Rule::N09 => "N09 PipeCycle",
        Rule::N10 => "N10 GetterCycle",
        Rule::N11 => "N11 UnknownName",
        Rule::N12 => "N12 LetBeforeUse",
        Rule::N13 => "N13 RefInBinding",
        Rule::N14 => "N14 QueryInBinding",
        Rule::N15 => "N15 NotAssignable",
        Rule::N16 => "N16 NotCallable",
        Rule::N17 => "N17 SlotTwice",
        Rule::N18 => "N18 SlotInFor",
        Rule::N19 => "N19 InitReach",
        Rule::N20 => "N20 UnknownToken",
        Rule::N21 => "N21 FlagClash",
        Rule::N22 => "N22 WrongProvider",
        Rule::N23 => "N23 EnvironmentCycle",
        Rule::N24 => "N24 UnknownEnvironment",
        Rule::N25 => "N25 NotAllowedHere",
        Rule::N26 => "N26 OutletName",
        Rule::N27 => "N27 DefaultTwice",
        Rule::N28 => "N28 NoTrack",
        Rule::N29 => "N29 UnknownQuery",
        Rule::N30 => "N30 EventOutside",
    }
}

// The line of an application that is refused for this, at this place.
fn line_at(alloc: Global, what: &str, place: Place) -> Result<String, AllocError>
    ensures { IfOk result (λ line. string_bytes line ≡ line_at what.now place) }
{
    let line = place.line;
    let column = place.column;
    format!(in alloc; "refused app {what} at {line}:{column}\n")
}

// The line of an application that breaks a rule.
fn break_line(alloc: Global, broken: &ng_ast::Refusal) -> Result<String, AllocError>
    ensures { IfOk result (λ line. string_bytes line ≡ break_line broken.now) }
{
    let what = title(broken.rule);
    let line = broken.place.line;
    let column = broken.place.column;
    let name = broken.name.as_str();
    format!(in alloc; "refused app {what} at {line}:{column} {name}\n")
}

impl Refusal {
    // The line that says so.
    pub(crate) fn line(&self, alloc: Global) -> Result<String, AllocError>
        ensures { IfOk result (λ line. string_bytes line ≡ line_of self.now) }
    {
        match self {
            Refusal::AppTooLong => String::from_str(alloc, "refused app TooLong\n"),
            Refusal::AppUtf8 => String::from_str(alloc, "refused app Utf8\n"),
            Refusal::AppSyntax(place) => line_at(alloc, "Syntax", *place),
            Refusal::AppLimit(place) => line_at(alloc, "Limit", *place),
            Refusal::AppBroken(broken) => break_line(alloc, broken),
            Refusal::AppNotBuilt(place) => line_at(alloc, "NotBuilt", *place),
            Refusal::EventsTooLong => String::from_str(alloc, "refused events TooLong\n"),
            Refusal::EventsSyntax => String::from_str(alloc, "refused events Syntax\n"),
            Refusal::EventsNotBuilt => String::from_str(alloc, "refused events NotBuilt\n"),
        }
    }
}
