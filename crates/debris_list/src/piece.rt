ghost use Rattle.std.specs.Prelude.{◌≡◌};
ghost use Rattle.mat_model.specs.WorkState.{is_condemned, path_of_debris};

use mat_path::Path;
use std::marker::Model;

// One piece of debris: its path, and whether a clean asked for its removal.
#[derive(Debug, Drop)]
pub(crate) struct Piece {
    path: Path,
    condemned: bool,
}

impl Model for Piece {
    ghost use Rattle.mat_model.specs.WorkState.{Debris};

    ghost Value = { Debris };

    ghost view = { λ piece. record { path = piece.path; condemned = piece.condemned } };
}

impl Piece {
    pub(crate) fn new(path: Path, condemned: bool) -> Piece
        ensures { result ≡ record { path = path; condemned = condemned } }
    {
        Piece { path, condemned }
    }

    pub(crate) fn path(&self) -> &Path
        ensures { result.now ≡ path_of_debris self.now }
    {
        &self.path
    }

    pub(crate) fn is_condemned(&self) -> bool
        ensures { result ≡ is_condemned self.now }
    {
        self.condemned
    }

    // Sets the mark.
    pub(crate) fn mark(&mut self, condemned: bool)
        ensures { self.new ≡ record { path = self.old.path; condemned = condemned } }
    {
        self.condemned = condemned;
    }
}
