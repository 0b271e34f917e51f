use crate::{Check, Digest, DigestRefusal};
use std::test::Fail;

const EMPTY: &[u8] = b"e3b0c44298fc1c149afbf4c8996fb92427ae41e4649b934ca495991b7852b855:0";

const LETTERS: &[u8] = b"ba7816bf8f01cfea414140de5dae2223b00361a396177a9cb410ff61f20015ad:3";

const LETTER: &[u8] = b"ca978112ca1bbdcafac231b39a23dc4da786eff8147c4e72b9807785afee48bb:1";

#[test]
fn texts_of_short_bytes_are_written_and_read(rt: HostRuntime) -> Result<(), Fail> {
    let table: [(&[u8], &[u8]); 3] = [(b"", EMPTY), (b"abc", LETTERS), (b"a", LETTER)];
    for (bytes, text) in table.iter() {
        let digest = Digest::of(bytes);
        assert_eq!(rt; digest.write_text().bytes(), *text);
        assert_eq!(rt; Digest::read_text(text), Ok(digest));
    }
    Ok(())
}

#[test]
fn the_largest_size_is_written_and_read(rt: HostRuntime) -> Result<(), Fail> {
    let digest = Digest {
        hash: [0xab; 32],
        size: u64::MAX,
    };
    let text = digest.write_text();
    assert_eq!(rt; text.bytes().len(), 85);
    assert_eq!(rt; Digest::read_text(text.bytes()), Ok(digest));
    Ok(())
}

#[test]
fn faults_are_refused_in_their_order(rt: HostRuntime) -> Result<(), Fail> {
    // what stands in place of the colon and the size of `LETTERS`
    let ends: [(&[u8], DigestRefusal); 9] = [
        (b"", DigestRefusal::Colon(64)),
        (b"3", DigestRefusal::Colon(64)),
        (b";x", DigestRefusal::Colon(64)),
        (b":", DigestRefusal::Size(65)),
        (b":03", DigestRefusal::Size(65)),
        (b":+3", DigestRefusal::Size(65)),
        (b":3 ", DigestRefusal::Size(65)),
        (b":18446744073709551616", DigestRefusal::Size(65)),
        (b":00", DigestRefusal::Size(65)),
    ];
    for (end, refusal) in ends.iter() {
        let mut text = Vec::from_slice(rt.alloc(), LETTERS)?;
        text.truncate(64);
        text.extend_from_slice(end)?;
        assert_eq!(rt; Digest::read_text(text.as_slice()), Err(*refusal));
    }
    // a byte of the hash that is put in place of another, or the end of the text
    let places: [(usize, u8); 4] = [(0, b'A'), (5, b'g'), (63, b'F'), (31, b':')];
    for (at, byte) in places.iter() {
        let mut text = Vec::from_slice(rt.alloc(), LETTER)?;
        if let Some(place) = text.get_mut(*at) {
            *place = *byte;
        }
        assert_eq!(rt;
            Digest::read_text(text.as_slice()),
            Err(DigestRefusal::Hash(*at))
        );
        text.truncate(*at);
        assert_eq!(rt;
            Digest::read_text(text.as_slice()),
            Err(DigestRefusal::Hash(*at))
        );
    }
    Ok(())
}

#[test]
fn pieces_end_in_the_digest_of_the_whole(rt: HostRuntime) -> Result<(), Fail> {
    let mut check = Check::new();
    for piece in [b"".as_slice(), b"a", b"b", b"", b"c"] {
        check.feed(piece);
    }
    let digest = check.end();
    assert_eq!(rt; digest, Digest::of(b"abc"));
    assert_eq!(rt; digest.write_text().bytes(), LETTERS);
    Ok(())
}
