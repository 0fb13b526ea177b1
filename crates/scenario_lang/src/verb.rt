ghost use Rattle.std.specs.Prelude.{◌≡◌};
ghost use Rattle.scenario_lang.specs.Table.{row, verb_of, may_follow};

/// What a line begins with.
#[derive(Clone, Copy, Debug, PartialEq, Eq)]
pub(crate) enum Verb {
    Mesh,
    Local,
    Lease,
    Remote,
    Node,
    Identity,
    Address,
    Withdraw,
    Start,
    Stop,
    Keep,
    Export,
    Raw,
    Tick,
    Compact,
    Link,
    Fail,
    Turn,
    Restart,
    Report,
}

/// All that a line may begin with.
const VERBS: [Verb; 20] = [
    Verb::Mesh,
    Verb::Local,
    Verb::Lease,
    Verb::Remote,
    Verb::Node,
    Verb::Identity,
    Verb::Address,
    Verb::Withdraw,
    Verb::Start,
    Verb::Stop,
    Verb::Keep,
    Verb::Export,
    Verb::Raw,
    Verb::Tick,
    Verb::Compact,
    Verb::Link,
    Verb::Fail,
    Verb::Turn,
    Verb::Restart,
    Verb::Report,
];

/// The parts of a text in their order; before its first line stands `Start`.
#[derive(Clone, Copy, Debug, PartialEq, Eq)]
pub(crate) enum Place {
    Start,
    Mesh,
    Local,
    Lease,
    Remotes,
    Actions,
}

/// Where a line with this first word stands.
#[tactic(auto, unfolding(crate::specs::Table::row))]
pub(crate) fn place_of(verb: Verb) -> Place
    ensures { result ≡ (row verb).place }
{
    match verb {
        Verb::Mesh => Place::Mesh,
        Verb::Local => Place::Local,
        Verb::Lease => Place::Lease,
        Verb::Remote => Place::Remotes,
        Verb::Node | Verb::Identity | Verb::Address | Verb::Withdraw => Place::Actions,
        Verb::Start | Verb::Stop | Verb::Keep | Verb::Export => Place::Actions,
        Verb::Raw | Verb::Tick | Verb::Compact | Verb::Link => Place::Actions,
        Verb::Fail | Verb::Turn | Verb::Restart | Verb::Report => Place::Actions,
    }
}

/// Whether a line of the second part may follow one of the first.
pub(crate) fn may_follow(last: Place, next: Place) -> bool
    ensures { result ≡ may_follow last next }
{
    match next {
        Place::Start => false,
        Place::Mesh => matches!(last, Place::Start),
        Place::Local => matches!(last, Place::Mesh),
        Place::Lease => matches!(last, Place::Local),
        Place::Remotes => matches!(last, Place::Local | Place::Lease | Place::Remotes),
        Place::Actions => !matches!(last, Place::Start | Place::Mesh),
    }
}

/// What begins a line, as a word.
#[tactic(auto, unfolding(crate::specs::Table::row))]
fn text_of(verb: Verb) -> &'static str
    ensures { result.now ≡ (row verb).first }
{
    match verb {
        Verb::Mesh => "mesh",
        Verb::Local => "local",
        Verb::Lease => "lease",
        Verb::Remote => "remote",
        Verb::Node => "node",
        Verb::Identity => "identity",
        Verb::Address => "address",
        Verb::Withdraw => "withdraw",
        Verb::Start => "start",
        Verb::Stop => "stop",
        Verb::Keep => "keep",
        Verb::Export => "export",
        Verb::Raw => "raw",
        Verb::Tick => "tick",
        Verb::Compact => "compact",
        Verb::Link => "link",
        Verb::Fail => "fail",
        Verb::Turn => "turn",
        Verb::Restart => "restart",
        Verb::Report => "report",
    }
}

/// What begins a line with this first word.
#[tactic(auto, unfolding(crate::specs::Table::verb_of))]
pub(crate) fn verb_named(first: &[u8]) -> Option<Verb>
    ensures { result ≡ verb_of first.now }
{
    for verb in VERBS.as_slice() {
        if first == text_of(*verb).as_bytes() {
            return Some(*verb);
        }
    }
    None
}
