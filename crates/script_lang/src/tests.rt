use crate::{
    Answered, Line, Said, ScanNote, Told, push_not_yet, push_unread, read_line, write_item,
    write_told,
};
use mat_digest::Digest;
use mat_model::{Answer, Device, FaultNote, Gone, Limit, Recorded, Reply, Task};
use mat_path::{Items, Memory, Path, Rel, Target};
use mat_tree::{Flat, Kind, Sum, What};
use std::alloc::Global;
use std::test::Fail;

// What was read of a line: the line of its item, or a word for what is no item.
fn said_of(alloc: Global, line: &[u8], workers: u32) -> Result<Vec<u8>, Memory> {
    match read_line(alloc, line, workers) {
        Line::Skip => Ok(Vec::from_slice(alloc, b"(skip)")?),
        Line::End => Ok(Vec::from_slice(alloc, b"(end)")?),
        Line::Unread => Ok(Vec::from_slice(alloc, b"(unread)")?),
        Line::Item(item) => write_item(alloc, &item),
        Line::NoMemory => Err(Memory),
    }
}

#[test]
fn items_are_written_as_they_were_read(rt: HostRuntime) -> Result<(), Fail> {
    let table: [&[u8]; 41] = [
        b"enter 1 7",
        b"enter 1 2 p",
        b"enter 1 2 r",
        b"enter 1 2 pr",
        b"enter 4294967295 18446744073709551615 pr",
        b"enter 0 0 p",
        b"enter 4294967295 18446744073709551615",
        b"leave 0",
        b"write 1 p/q 00ff",
        b"write 1 p -",
        b"declare 1 p d . x ba7816bf8f01cfea414140de5dae2223b00361a396177a9cb410ff61f20015ad:3 a l ../a b",
        b"declare 1 p f ba7816bf8f01cfea414140de5dae2223b00361a396177a9cb410ff61f20015ad:3 .",
        b"copy 1 p/q r",
        b"match 1 p f ba7816bf8f01cfea414140de5dae2223b00361a396177a9cb410ff61f20015ad:3",
        b"match 1 p x ba7816bf8f01cfea414140de5dae2223b00361a396177a9cb410ff61f20015ad:3",
        b"match 1 p d ba7816bf8f01cfea414140de5dae2223b00361a396177a9cb410ff61f20015ad:3",
        b"has 1 p",
        b"ensure 12 a/b",
        b"invalidate 1 p",
        b"clean 0 real",
        b"clean 9223372036854775807 dry",
        b"clean 1 all",
        b"flush",
        b"blob 616263",
        b"blob -",
        b"lie ba7816bf8f01cfea414140de5dae2223b00361a396177a9cb410ff61f20015ad:3 61",
        b"at 0",
        b"at 9223372036854775807",
        b"step 0",
        b"step 1",
        b"drain",
        b"show a/b",
        b"asks",
        b"fail disk 1",
        b"fail store 18446744073709551615",
        b"fail keeper 2",
        b"stop 0 none",
        b"stop 1 whole",
        b"stop 2 torn",
        b"restart",
        b"ensure 1 enter",
    ];
    for line in table.iter() {
        assert_eq!(rt; said_of(rt.alloc(), line, 2)?.as_slice(), *line);
    }
    Ok(())
}

#[test]
fn lines_that_are_no_items(rt: HostRuntime) -> Result<(), Fail> {
    let table: [(&[u8], &[u8]); 4] = [
        (b"", b"(skip)"),
        (b"#", b"(skip)"),
        (b"# enter 1 7", b"(skip)"),
        (b"end", b"(end)"),
    ];
    for (line, said) in table.iter() {
        assert_eq!(rt; said_of(rt.alloc(), line, 1)?.as_slice(), *said);
    }
    Ok(())
}

#[test]
fn lines_that_say_nothing(rt: HostRuntime) -> Result<(), Fail> {
    let table: [&[u8]; 57] = [
        b"foo",
        b" ",
        b"end ",
        b"End",
        b"ensure 1",
        b"ensure 1 a//b",
        b"ensure 1 a b",
        b"ensure x a",
        b"ensure 1 a ",
        b"ensure  1 a",
        b" ensure 1 a",
        b"write 1 p",
        b"write 1 p 6",
        b"write 1 p 6A",
        b"write 1 p 6g",
        b"write 1 p --",
        b"write 1 p ",
        b"write 1 . 6a",
        b"write 1 p 6a 6a",
        b"enter 01 7",
        b"enter 1 07",
        b"enter +1 7",
        b"enter 1 7 ",
        b"enter 4294967296 7",
        b"enter 1 18446744073709551616",
        b"enter 1",
        b"enter 1 2 rp",
        b"enter 1 2 p r",
        b"enter 1 2 pr pr",
        b"enter 1 2 x",
        b"enter 1 2 P",
        b"enter 1 2 pp",
        b"enter 1 2 ",
        b"enter 1 2 p ",
        b"enter 1 p",
        b"declare 1 p",
        b"declare 1 p ",
        b"declare 1 p d",
        b"declare 1 p d . f ba7816bf8f01cfea414140de5dae2223b00361a396177a9cb410ff61f20015ad:3 b f ba7816bf8f01cfea414140de5dae2223b00361a396177a9cb410ff61f20015ad:3 a",
        b"declare 1 a/a/a/a/a/a/a/a/a/a/a/a/a/a/a/a/a/a/a/a/a/a/a/a/a/a/a/a/a/a/a/a/a/a/a/a/a/a/a/a/a/a/a/a/a/a/a/a/a/a/a/a/a/a/a/a/a/a/a/a/a/a/a/a d . d a",
        b"copy 1 p",
        b"match 1 p l ba7816bf8f01cfea414140de5dae2223b00361a396177a9cb410ff61f20015ad:3",
        b"match 1 p f ba7816bf8f01cfea414140de5dae2223b00361a396177a9cb410ff61f20015ad:03",
        b"clean 9223372036854775808 real",
        b"clean 1 none",
        b"flush 1",
        b"blob",
        b"lie ba7816bf8f01cfea414140de5dae2223b00361a396177a9cb410ff61f20015ad 61",
        b"at 9223372036854775808",
        b"step 1",
        b"step",
        b"drain ",
        b"show a b",
        b"fail disk 0",
        b"fail region 1",
        b"stop 1 half",
        b"restart 1",
    ];
    for line in table.iter() {
        assert_eq!(rt;
            said_of(rt.alloc(), line, 1)?.as_slice(),
            b"(unread)".as_slice()
        );
    }
    Ok(())
}

#[test]
fn a_line_has_at_most_a_mebibyte(rt: HostRuntime) -> Result<(), Fail> {
    let mut note = vec![in rt.alloc(); b'#'; 1_048_576]?;
    assert_eq!(rt;
        said_of(rt.alloc(), note.as_slice(), 1)?.as_slice(),
        b"(skip)".as_slice()
    );
    note.push(b'#')?;
    assert_eq!(rt;
        said_of(rt.alloc(), note.as_slice(), 1)?.as_slice(),
        b"(unread)".as_slice()
    );
    let digits = vec![in rt.alloc(); b'0'; 1_048_570]?;
    let mut blob = Vec::from_slice(rt.alloc(), b"blob ")?;
    blob.extend_from_slice(digits.as_slice())?;
    assert_eq!(rt;
        said_of(rt.alloc(), blob.as_slice(), 1)?.as_slice(),
        blob.as_slice()
    );
    Ok(())
}

/// The digest that stands in texts.
const DIGEST: Digest = Digest {
    hash: [0xab; 32],
    size: 3,
};

/// A call that failed.
const NOTE: FaultNote = FaultNote {
    device: Device::Store,
    before: 4,
    after: 6,
};

// What is told, where no ticket was answered.
fn told(alloc: Global, said: Said) -> Told {
    Told {
        said,
        answers: Items::of(Vec::new(alloc)),
    }
}

#[test]
fn what_is_said(rt: HostRuntime) -> Result<(), Fail> {
    let alloc = rt.alloc();
    let path = Path::read(alloc, b"a/b")?;
    let table: [(Said, &[u8]); 17] = [
        (
            Said::Stored(DIGEST),
            b"stored abababababababababababababababababababababababababababababababab:3\n",
        ),
        (Said::At(7), b"at 7\n"),
        (Said::Idle, b"idle\n"),
        (
            Said::Began(Task::Make {
                path: path.copy()?,
                stamp: 3,
            }),
            b"began make a/b\n",
        ),
        (Said::Began(Task::Wipe { path }), b"began wipe a/b\n"),
        (Said::Going, b"going\n"),
        (Said::Ended, b"ended\n"),
        (Said::Drained, b"drained\n"),
        (Said::Busy, b"busy\n"),
        (Said::Asks(12), b"asks 12\n"),
        (Said::Armed, b"armed\n"),
        (Said::Restarted(2), b"restarted 2\n"),
        (Said::Stopped, b"stopped\n"),
        (Said::Shut(ScanNote::Fault(NOTE)), b"fault store 4 6\n"),
        (Said::Shut(ScanNote::NoMemory), b"nomem\n"),
        (Said::Reply(Reply::Entered), b"entered\n"),
        (Said::Shown(Items::of(Vec::new(alloc))), b"show 0\n"),
    ];
    for (said, text) in Vec::from_array(alloc, table)? {
        let text_told = write_told(alloc, &told(alloc, said))?;
        assert_eq!(rt; text_told.as_slice(), text);
    }
    Ok(())
}

#[test]
fn what_is_replied(rt: HostRuntime) -> Result<(), Fail> {
    let alloc = rt.alloc();
    let mut rows = Vec::new(alloc);
    let (a, b) = (Path::read(alloc, b"a")?, Path::read(alloc, b"b/c")?);
    rows.push(Gone {
        path: a,
        bytes: 18_446_744_073_709_551_615,
    })?;
    rows.push(Gone { path: b, bytes: 2 })?;
    let mut strays = Vec::new(alloc);
    strays.push(Path::read(alloc, b"s")?)?;
    let sum = Sum {
        kind: Kind::Exec,
        digest: DIGEST,
    };
    let cleaned = Reply::Cleaned {
        dry: true,
        rows: Items::of(rows),
        strays: Items::of(strays),
    };
    let table: [(Reply, &[u8]); 32] = [
        (Reply::Took(3), b"took 3\n"),
        (
            Reply::Differs(18_446_744_073_709_551_615),
            b"differs 18446744073709551615\n",
        ),
        (Reply::Left(2), b"left 2\n"),
        (Reply::Known, b"known\n"),
        (Reply::Unknown, b"unknown\n"),
        (Reply::Queued(1), b"queued 1\n"),
        (Reply::Busy(3), b"busy 3\n"),
        (Reply::Declared(0), b"declared 0\n"),
        (
            Reply::Kept(18_446_744_073_709_551_615),
            b"kept 18446744073709551615\n",
        ),
        (Reply::NoSource, b"nosource\n"),
        (Reply::TooLong, b"toolong\n"),
        (Reply::Same(5), b"same 5\n"),
        (Reply::Other, b"other\n"),
        (Reply::Nothing, b"none\n"),
        (Reply::Stands(6), b"stands 6\n"),
        (Reply::NotMade(7), b"not made 7\n"),
        (
            Reply::Ready { stamp: 4, sum },
            b"ready 4 x abababababababababababababababababababababababababababababababab:3\n",
        ),
        (Reply::Asked(12), b"open 12\n"),
        (Reply::Undeclared, b"undeclared\n"),
        (Reply::Invalid(8), b"invalid 8\n"),
        (Reply::Flushed(9), b"flushed 9\n"),
        (Reply::NotLive, b"notlive\n"),
        (
            cleaned,
            b"dry 2 18446744073709551615 1\nrow a 18446744073709551615\nrow b/c 2\nstray s\n",
        ),
        (Reply::Fault(NOTE), b"fault store 4 6\n"),
        (Reply::Full(Limit::History), b"full history\n"),
        (Reply::Full(Limit::Waiting), b"full waiting\n"),
        (Reply::NoMemory, b"nomem\n"),
        (Reply::Refused(NOTE), b"refused store 4 6\n"),
        (Reply::Fresh(Recorded::Nothing), b"done fresh\n"),
        (Reply::Stale, b"done stale\n"),
        (Reply::Started, b"started\n"),
        (Reply::Full(Limit::Holds), b"full holds\n"),
    ];
    for (reply, text) in Vec::from_array(alloc, table)? {
        let text_told = write_told(alloc, &told(alloc, Said::Reply(reply)))?;
        assert_eq!(rt; text_told.as_slice(), text);
    }
    Ok(())
}

#[test]
fn nodes_and_answers_are_told(rt: HostRuntime) -> Result<(), Fail> {
    let alloc = rt.alloc();
    let mut nodes = Vec::new(alloc);
    nodes.push(Flat {
        rel: Rel::root(alloc),
        what: What::Dir,
    })?;
    let target = Target::read(alloc, b"../t")?;
    nodes.push(Flat {
        rel: Rel::read(alloc, b"b/c")?,
        what: What::Link(target),
    })?;
    let mut answers = Vec::new(alloc);
    answers.push(Answered {
        ticket: 5,
        answer: Answer::Missing(DIGEST),
    })?;
    answers.push(Answered {
        ticket: 3,
        answer: Answer::Fault(NOTE),
    })?;
    answers.push(Answered {
        ticket: 4,
        answer: Answer::NoMemory,
    })?;
    answers.push(Answered {
        ticket: 6,
        answer: Answer::Preempted(4_294_967_295),
    })?;
    let told = Told {
        said: Said::Shown(Items::of(nodes)),
        answers: Items::of(answers),
    };
    let text =
        b"show 2\nd .\nl ../t b/c\nanswer 5 missing abababababababababababababababababababababababababababababababab:3\nanswer 3 fault store 4 6\nanswer 4 nomem\nanswer 6 preempted 4294967295\n";
    assert_eq!(rt; write_told(alloc, &told)?.as_slice(), text.as_slice());
    Ok(())
}

#[test]
fn what_is_told_of_no_item(rt: HostRuntime) -> Result<(), Fail> {
    let mut out = Vec::new(rt.alloc());
    push_unread(&mut out)?;
    push_not_yet(&mut out)?;
    assert_eq!(rt; out.as_slice(), b"unread\nnotyet\n".as_slice());
    Ok(())
}
