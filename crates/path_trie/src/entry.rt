use mat_path::Path;

/// A value, and the path at which it stands.
#[derive(Debug, Drop)]
pub struct Entry<V> {
    pub path: Path,
    pub value: V,
}
