// Text on its way out: it is gathered, and goes out in large pieces.
ghost use Rattle.std.specs.Prelude.{◌≡◌, ℕ, List, Option};
ghost use Rattle.mat_io.specs.Answers.{put_failed};
ghost use Rattle.mat_io.specs.Causes.{HasCause};
ghost use Rattle.buckd.specs.Streams.{Flowed, Flows, IsLittle, IsOut};

use mat_io::{Put, Sink};

/// How much text is gathered before it goes out.
const ENOUGH: usize = 65_536;

/// Lets the gathered text go out.
pub fn flush<T: Sink>(gathered: &mut Vec<u8>, output: &mut T) -> Put
    ensures flows { (before : Option (List ℕ)) (text : List ℕ) → Flows before (T.out output.old) gathered.old.items text → Flowed before (T.out output.new) gathered.new.items text result }
    ensures out { IsOut result gathered.new.items }
    ensures cause { HasCause (T.faults output.old) (T.faults output.new) (put_failed result) }
{
    match output.write(gathered.as_slice()) {
        Put::All => {
            gathered.clear();
            Put::All
        }
        Put::Failed => Put::Failed,
        Put::NoMemory => Put::NoMemory,
    }
}

/// Lets the gathered text go out where it is enough.
pub fn flush_enough<T: Sink>(gathered: &mut Vec<u8>, output: &mut T) -> Put
    ensures flows { (before : Option (List ℕ)) (text : List ℕ) → Flows before (T.out output.old) gathered.old.items text → Flowed before (T.out output.new) gathered.new.items text result }
    ensures out { IsLittle result gathered.new.items }
    ensures cause { HasCause (T.faults output.old) (T.faults output.new) (put_failed result) }
{
    if gathered.len() < ENOUGH {
        return Put::All;
    }
    flush(gathered, output)
}
