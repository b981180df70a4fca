// The words of the language.
// stays: what each word is stands here once, and `reading` says what is read behind it
ghost use Rattle.scripts.specs.Keywords.{Opens, Asks};

// What the first word of a line begins.
#[derive(Clone, Copy)]
pub(crate) enum Opening {
    Nothing,
    Theme,
    Stack,
    Line,
    Change,
}

// What the second word of a change asks for.
#[derive(Clone, Copy)]
pub(crate) enum Operation {
    Push,
    Pop,
    Clear,
    Restore,
    Noop,
}

// What a first word begins, if anything.
pub(crate) fn opening_of(w: &[u8]) -> Option<Opening>
    ensures { Opens w.now result }
{
    match w {
        [] | [b'#', ..] => Some(Opening::Nothing),
        b"foreground" | b"background" | b"rule" => Some(Opening::Theme),
        b"stack" => Some(Opening::Stack),
        b"line" => Some(Opening::Line),
        [b'0'..=b'9', ..] => Some(Opening::Change),
        _ => None,
    }
}

// What a change's second word asks for, if anything.
pub(crate) fn operation_of(w: &[u8]) -> Option<Operation>
    ensures { Asks w.now result }
{
    match w {
        b"push" => Some(Operation::Push),
        b"pop" => Some(Operation::Pop),
        b"clear" => Some(Operation::Clear),
        b"restore" => Some(Operation::Restore),
        b"noop" => Some(Operation::Noop),
        _ => None,
    }
}
