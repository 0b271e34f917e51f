// The words that begin lines.
ghost use Rattle.std.specs.Prelude.{◌≡◌};
ghost use Rattle.script_lang.specs.Verbs.{asking_of, doing_of};

/// What a request asks for, by the word that begins its line.
#[derive(Clone, Copy)]
pub(crate) enum Asking {
    Enter,
    Leave,
    Write,
    Declare,
    Copy,
    Match,
    Has,
    Ensure,
    Invalidate,
    Clean,
    Flush,
}

/// What another line does, by the word that begins it.
#[derive(Clone, Copy)]
pub(crate) enum Doing {
    Blob,
    Lie,
    At,
    Step,
    Drain,
    Show,
    Asks,
    Fail,
    Stop,
    Restart,
}

// What a request asks for whose line this word begins.
pub(crate) fn asking_spelled(word: &[u8]) -> Option<Asking>
    ensures { result ≡ asking_of word.now }
{
    if word == b"enter".as_slice() {
        return Some(Asking::Enter);
    }
    if word == b"leave".as_slice() {
        return Some(Asking::Leave);
    }
    if word == b"write".as_slice() {
        return Some(Asking::Write);
    }
    if word == b"declare".as_slice() {
        return Some(Asking::Declare);
    }
    if word == b"copy".as_slice() {
        return Some(Asking::Copy);
    }
    if word == b"match".as_slice() {
        return Some(Asking::Match);
    }
    if word == b"has".as_slice() {
        return Some(Asking::Has);
    }
    if word == b"ensure".as_slice() {
        return Some(Asking::Ensure);
    }
    if word == b"invalidate".as_slice() {
        return Some(Asking::Invalidate);
    }
    if word == b"clean".as_slice() {
        return Some(Asking::Clean);
    }
    if word == b"flush".as_slice() {
        return Some(Asking::Flush);
    }
    None
}

// What another line does that this word begins.
pub(crate) fn doing_spelled(word: &[u8]) -> Option<Doing>
    ensures { result ≡ doing_of word.now }
{
    if word == b"blob".as_slice() {
        return Some(Doing::Blob);
    }
    if word == b"lie".as_slice() {
        return Some(Doing::Lie);
    }
    if word == b"at".as_slice() {
        return Some(Doing::At);
    }
    if word == b"step".as_slice() {
        return Some(Doing::Step);
    }
    if word == b"drain".as_slice() {
        return Some(Doing::Drain);
    }
    if word == b"show".as_slice() {
        return Some(Doing::Show);
    }
    if word == b"asks".as_slice() {
        return Some(Doing::Asks);
    }
    if word == b"fail".as_slice() {
        return Some(Doing::Fail);
    }
    if word == b"stop".as_slice() {
        return Some(Doing::Stop);
    }
    if word == b"restart".as_slice() {
        return Some(Doing::Restart);
    }
    None
}
