// The top call: what the program does with its words.
ghost use Rattle.std.specs.Prelude.{◌≡◌, true, false};
ghost use Rattle.mat_io.specs.Causes.{HasCause};
ghost use Rattle.buckd.specs.Streams.{TakesWithin};
ghost use Rattle.buckd.specs.Replay.{Leaves, Replays, input_failed, input_limit, is_replay, is_status_of, output_failed};

use crate::replay::{Ended, replay};
use mat_io::{Sink, Source};
use std::alloc::Global;

// Whether the words ask for the run of a script.
fn asks_replay(words: &[String]) -> bool
    ensures { result ≡ is_replay words.now }
{
    match words {
        [verb, workers] => verb.as_str() == "replay" && workers.as_str() == "1",
        _ => false,
    }
}

/// Does what the words ask for: `replay 1` runs the input's script and writes what it is answered. Other words do
/// nothing, with status 2.
pub fn buckd<S: Source, T: Sink>(
    alloc: Global,
    words: &[String],
    input: &mut S,
    output: &mut T,
) -> Ended
    ensures replays { is_replay words.now ≡ true → Replays input_limit (S.left input.old) (S.left input.new) (T.out output.old) (T.out output.new) result }
    ensures taken { is_replay words.now ≡ true → TakesWithin input_limit (S.left input.old) (S.left input.new) }
    ensures status { is_status_of (is_replay words.now) result.status ≡ true }
    ensures leaves { Leaves result }
    ensures input { is_replay words.now ≡ false → input.new ≡ input.old }
    ensures output { is_replay words.now ≡ false → output.new ≡ output.old }
    ensures source { HasCause (S.faults input.old) (S.faults input.new) (input_failed result) }
    ensures sink { HasCause (T.faults output.old) (T.faults output.new) (output_failed result) }
{
    if asks_replay(words) {
        return replay(alloc, 1, input, output);
    }
    Ended {
        status: 2,
        run: None,
        disk: None,
    }
}

#[cfg(test)]
mod tests {
    use super::*;
    use crate::replay::run_within;
    use mat_io::{MemSink, MemSource};
    use std::test::Fail;

    const SCRIPT: &[u8] =
        b"enter 1 7\nwrite 1 out/f 616263\nensure 1 out/f\ndrain\nshow out/f\nend\n";

    const UNENDED: &[u8] = b"enter 1 7\nwrite 1 out/f 616263\nensure 1 out/f\ndrain\nshow out/f\n";

    const TEXT: &[u8] =
        b"entered\ndeclared 1\nopen 2\ndrained\nanswer 2 ready 1 f ba7816bf8f01cfea414140de5dae2223b00361a396177a9cb410ff61f20015ad:3\nshow 1\nf ba7816bf8f01cfea414140de5dae2223b00361a396177a9cb410ff61f20015ad:3 .\n";

    fn source(alloc: Global, script: &[u8], fails: &[u64]) -> Result<MemSource, Fail> {
        let mut bytes = Vec::new(alloc);
        bytes.extend_from_slice(script)?;
        let mut numbers = Vec::new(alloc);
        numbers.extend_from_slice(fails)?;
        Ok(MemSource::new(bytes, numbers))
    }

    fn sink(alloc: Global, fails: &[u64]) -> Result<MemSink, Fail> {
        let mut numbers = Vec::new(alloc);
        numbers.extend_from_slice(fails)?;
        Ok(MemSink::new(alloc, numbers))
    }

    #[test]
    fn scripts_and_limits(rt: HostRuntime) -> Result<(), Fail> {
        let table: [(u64, &[u8], u8, &[u8]); 10] = [
            (100, b"end", 0, b""),
            (100, b"end\nfoo\n", 0, b""),
            (100, b"", 5, b""),
            (100, b"foo", 5, b"unread\n"),
            (100, b"foo\n\n#\nfoo\n", 5, b"unread\nunread\n"),
            (0, b"", 7, b""),
            (3, b"foo\nend\n", 7, b""),
            (4, b"foo\nend\n", 7, b"unread\n"),
            (7, b"foo\nend", 7, b"unread\n"),
            (8, b"foo\nend", 0, b"unread\n"),
        ];
        for (limit, script, status, text) in table.iter() {
            let mut input = source(rt.alloc(), *script, &[])?;
            let mut output = sink(rt.alloc(), &[])?;
            let ended = run_within(rt.alloc(), *limit, &mut input, &mut output);
            assert_eq!(rt; ended.status, *status);
            assert!(rt; ended.run.is_some());
            assert!(rt; ended.disk.is_some());
            assert_eq!(rt; output.bytes(), *text);
        }
        Ok(())
    }

    #[test]
    fn calls_that_fail(rt: HostRuntime) -> Result<(), Fail> {
        let table: [(&[u8], &[u64], &[u64], u8, &[u8]); 7] = [
            (SCRIPT, &[], &[], 0, TEXT),
            (SCRIPT, &[0], &[], 3, b""),
            (SCRIPT, &[1], &[], 0, TEXT),
            (UNENDED, &[1], &[], 3, TEXT),
            (UNENDED, &[2], &[], 5, TEXT),
            (SCRIPT, &[], &[0], 4, b""),
            (SCRIPT, &[], &[1], 0, TEXT),
        ];
        for (script, reads, writes, status, text) in table.iter() {
            let mut input = source(rt.alloc(), *script, *reads)?;
            let mut output = sink(rt.alloc(), *writes)?;
            let ended = replay(rt.alloc(), 1, &mut input, &mut output);
            assert_eq!(rt; ended.status, *status);
            assert_eq!(rt; output.bytes(), *text);
        }
        Ok(())
    }

    #[test]
    fn a_line_that_is_too_long(rt: HostRuntime) -> Result<(), Fail> {
        let mut script = vec![in rt.alloc(); b'#'; 1_048_577]?;
        script.extend_from_slice(b"\nenter 1 7\nend\n")?;
        let mut input = source(rt.alloc(), script.as_slice(), &[])?;
        let mut output = sink(rt.alloc(), &[])?;
        let ended = replay(rt.alloc(), 1, &mut input, &mut output);
        assert_eq!(rt; ended.status, 0);
        assert_eq!(rt; output.bytes(), b"unread\nentered\n".as_slice());
        Ok(())
    }

    // The status for these words and the script, and what was written.
    fn status(alloc: Global, words: &[&str]) -> Result<(u8, MemSink), Fail> {
        let mut given = Vec::new(alloc);
        for word in words {
            given.push(String::from_str(alloc, *word)?)?;
        }
        let mut input = source(alloc, SCRIPT, &[])?;
        let mut output = sink(alloc, &[])?;
        let ended = buckd(alloc, given.as_slice(), &mut input, &mut output);
        Ok((ended.status, output))
    }

    #[test]
    fn words(rt: HostRuntime) -> Result<(), Fail> {
        let table: [(&[&str], u8, &[u8]); 8] = [
            (&["replay", "1"], 0, TEXT),
            (&["replay", "0"], 2, b""),
            (&["replay", "17"], 2, b""),
            (&["replay", "01"], 2, b""),
            (&["replay"], 2, b""),
            (&["replay", "--help"], 2, b""),
            (&["replay", "1", "1"], 2, b""),
            (&[], 2, b""),
        ];
        for (words, wanted, text) in table.iter() {
            let (status, output) = status(rt.alloc(), *words)?;
            assert_eq!(rt; status, *wanted);
            assert_eq!(rt; output.bytes(), *text);
        }
        Ok(())
    }
}
