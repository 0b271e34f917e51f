ghost use Rattle.std.specs.Prelude.{◌≡◌, List};
ghost use Rattle.std.specs.List.{list_any};
ghost use Rattle.mat_model.specs.declared.book.Hold.{Hold};
ghost use Rattle.mat_model.specs.Cleaning.{holds_path};

use mat_path::Path;

/// Whoever knows the holds of commands.
pub trait Holding {
    // The holds, in the order in which they were given.
    ghost holds: { Self → List Hold };

    /// Whether a hold's path overlaps this one. Takes no memory.
    fn held(&self, path: &Path) -> bool
        ensures { result ≡ list_any (holds_path path.now) (holds self.now) };
}
