// Worked runs: a script, and what it is answered.
use crate::replay::replay;
use mat_io::{MemSink, MemSource};
use std::test::Fail;

/// An empty file and an empty directory: nothing is fetched for them.
const EMPTY_THINGS: (&[u8], &[u8]) = (
    b"enter 1 7\n\
          declare 1 e/file f e3b0c44298fc1c149afbf4c8996fb92427ae41e4649b934ca495991b7852b855:0 .\n\
          declare 1 e/dir d .\n\
          ensure 1 e/file\n\
          ensure 1 e/dir\n\
          drain\n\
          asks\n\
          show e\n\
          end\n",
    b"entered\n\
          declared 1\n\
          declared 2\n\
          open 3\n\
          open 4\n\
          drained\n\
          answer 3 ready 1 f e3b0c44298fc1c149afbf4c8996fb92427ae41e4649b934ca495991b7852b855:0\n\
          answer 4 ready 2 d e3b0c44298fc1c149afbf4c8996fb92427ae41e4649b934ca495991b7852b855:0\n\
          asks 0\n\
          show 2\n\
          d dir\n\
          f e3b0c44298fc1c149afbf4c8996fb92427ae41e4649b934ca495991b7852b855:0 file\n",
);

/// Paths inside and outside a directory.
const INSIDE_A_DIRECTORY: (&[u8], &[u8]) = (
    b"enter 1 7\n\
          blob 61\n\
          declare 1 out/d d . f ca978112ca1bbdcafac231b39a23dc4da786eff8147c4e72b9807785afee48bb:1 x\n\
          ensure 1 out/d/x\n\
          ensure 1 out/d/y\n\
          ensure 1 out\n\
          drain\n\
          ensure 1 out/d/x\n\
          end\n",
    b"entered\n\
          stored ca978112ca1bbdcafac231b39a23dc4da786eff8147c4e72b9807785afee48bb:1\n\
          declared 1\n\
          open 2\n\
          undeclared\n\
          undeclared\n\
          drained\n\
          answer 2 ready 1 d 8cd2d7e6f5c75740e6ae6534ff852e91e933de1a1422779e3e81b7b52f845bd4:75\n\
          ready 1 d 8cd2d7e6f5c75740e6ae6534ff852e91e933de1a1422779e3e81b7b52f845bd4:75\n",
);

/// A file that the store lacks at first.
const MISSING_THEN_STORED: (&[u8], &[u8]) = (
    b"enter 1 7\n\
          declare 1 p f ca978112ca1bbdcafac231b39a23dc4da786eff8147c4e72b9807785afee48bb:1 .\n\
          ensure 1 p\n\
          drain\n\
          blob 61\n\
          ensure 1 p\n\
          drain\n\
          asks\n\
          end\n",
    b"entered\n\
          declared 1\n\
          open 2\n\
          drained\n\
          answer 2 missing ca978112ca1bbdcafac231b39a23dc4da786eff8147c4e72b9807785afee48bb:1\n\
          stored ca978112ca1bbdcafac231b39a23dc4da786eff8147c4e72b9807785afee48bb:1\n\
          open 5\n\
          drained\n\
          answer 5 ready 1 f ca978112ca1bbdcafac231b39a23dc4da786eff8147c4e72b9807785afee48bb:1\n\
          asks 2\n",
);

/// A store that holds other bytes.
const LYING_STORE: (&[u8], &[u8]) = (
    b"enter 1 7\n\
          lie ca978112ca1bbdcafac231b39a23dc4da786eff8147c4e72b9807785afee48bb:1 62\n\
          declare 1 p f ca978112ca1bbdcafac231b39a23dc4da786eff8147c4e72b9807785afee48bb:1 .\n\
          ensure 1 p\n\
          drain\n\
          end\n",
    b"entered\n\
          stored ca978112ca1bbdcafac231b39a23dc4da786eff8147c4e72b9807785afee48bb:1\n\
          declared 1\n\
          open 2\n\
          drained\n\
          answer 2 corrupt ca978112ca1bbdcafac231b39a23dc4da786eff8147c4e72b9807785afee48bb:1 3e23e8160039594a33894f6564e1b1348bbd7a0088d42c4acb73eeaed59c009d:1\n",
);

/// A make that fails leaves what it put, and the next one begins anew.
const FAILED_MAKE: (&[u8], &[u8]) = (
    b"enter 1 7\n\
          blob 61\n\
          declare 1 p d . f ca978112ca1bbdcafac231b39a23dc4da786eff8147c4e72b9807785afee48bb:1 a l a b f 3e23e8160039594a33894f6564e1b1348bbd7a0088d42c4acb73eeaed59c009d:1 c x ca978112ca1bbdcafac231b39a23dc4da786eff8147c4e72b9807785afee48bb:1 d\n\
          ensure 1 p\n\
          drain\n\
          show p\n\
          asks\n\
          lie 3e23e8160039594a33894f6564e1b1348bbd7a0088d42c4acb73eeaed59c009d:1 61\n\
          blob 62\n\
          ensure 1 p\n\
          drain\n\
          show p\n\
          asks\n\
          end\n",
    b"entered\n\
          stored ca978112ca1bbdcafac231b39a23dc4da786eff8147c4e72b9807785afee48bb:1\n\
          declared 1\n\
          open 2\n\
          drained\n\
          answer 2 missing 3e23e8160039594a33894f6564e1b1348bbd7a0088d42c4acb73eeaed59c009d:1\n\
          show 3\n\
          d .\n\
          f ca978112ca1bbdcafac231b39a23dc4da786eff8147c4e72b9807785afee48bb:1 a\n\
          l a b\n\
          asks 2\n\
          stored 3e23e8160039594a33894f6564e1b1348bbd7a0088d42c4acb73eeaed59c009d:1\n\
          stored 3e23e8160039594a33894f6564e1b1348bbd7a0088d42c4acb73eeaed59c009d:1\n\
          open 5\n\
          drained\n\
          answer 5 ready 1 d 7b3c700eafddd89d5c2aa7cebbf85602ea805d83a800e211a2f5cab3a04e2e7a:235\n\
          show 5\n\
          d .\n\
          f ca978112ca1bbdcafac231b39a23dc4da786eff8147c4e72b9807785afee48bb:1 a\n\
          l a b\n\
          f 3e23e8160039594a33894f6564e1b1348bbd7a0088d42c4acb73eeaed59c009d:1 c\n\
          x ca978112ca1bbdcafac231b39a23dc4da786eff8147c4e72b9807785afee48bb:1 d\n\
          asks 5\n",
);

/// Commands with flags that come before and beside a live one: they aren't served yet, and change nothing.
const FLAGGED: (&[u8], &[u8]) = (
    b"enter 1 7 p\n\
      write 1 p 61\n\
      enter 1 7 r\n\
      enter 1 7 pr\n\
      write 1 p 61\n\
      enter 1 7\n\
      enter 1 7 p\n\
      enter 2 8 r\n\
      write 2 p 61\n\
      write 1 p 61\n\
      end\n",
    b"notyet\n\
      notlive\n\
      notyet\n\
      notyet\n\
      notlive\n\
      entered\n\
      notyet\n\
      notyet\n\
      notlive\n\
      declared 4\n",
);

/// Declarations and writes that aren't served, or not yet, and another digest of no bytes, which is asked for.
const REFUSED: (&[u8], &[u8]) = (
    b"write 1 p 61\n\
      declare 1 p d .\n\
      enter 1 7\n\
      enter 2 7\n\
      write 1 p 61\n\
      declare 1 p/q d .\n\
      write 1 p 62\n\
      write 2 p 62\n\
      declare 2 p d .\n\
      declare 1 e f ca978112ca1bbdcafac231b39a23dc4da786eff8147c4e72b9807785afee48bb:0 .\n\
      ensure 1 e\n\
      drain\n\
      asks\n\
      restart\n\
      end\n",
    b"notlive\n\
      notlive\n\
      entered\n\
      notyet\n\
      declared 3\n\
      notyet\n\
      notyet\n\
      notlive\n\
      notlive\n\
      declared 6\n\
      open 7\n\
      drained\n\
      answer 7 missing ca978112ca1bbdcafac231b39a23dc4da786eff8147c4e72b9807785afee48bb:0\n\
      asks 1\n\
      notyet\n",
);

#[test]
fn worked_runs(rt: HostRuntime) -> Result<(), Fail> {
    let table = [
        EMPTY_THINGS,
        INSIDE_A_DIRECTORY,
        MISSING_THEN_STORED,
        LYING_STORE,
        FAILED_MAKE,
        FLAGGED,
        REFUSED,
    ];
    for (script, text) in table.iter() {
        let bytes = Vec::from_slice(rt.alloc(), *script)?;
        let mut input = MemSource::new(bytes, Vec::new(rt.alloc()));
        let mut output = MemSink::new(rt.alloc(), Vec::new(rt.alloc()));
        let ended = replay(rt.alloc(), 1, &mut input, &mut output);
        assert_eq!(rt; ended.status, 0);
        assert_eq!(rt; output.bytes(), *text);
    }
    Ok(())
}
