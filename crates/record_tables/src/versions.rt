//! The version of a record.
ghost use Rattle.std.specs.Prelude.{◌≡◌};
ghost use Rattle.record_tables.specs.Loads as spec;

use record_rows::MetaRow;

/// Whether `meta` is one row, of this version.
pub fn is_version(version: i64, metas: &[MetaRow]) -> bool
    ensures { result ≡ spec.is_version version metas.now }
{
    match metas {
        [meta] => meta.one == 1 && meta.version == version,
        _ => false,
    }
}
