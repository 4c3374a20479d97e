//! A file that is opened.
ghost use Rattle.std.specs.Prelude.{◌≡◌, false, IfOk};
ghost use Rattle.sqlite.specs.Files.{file_state};
ghost use Rattle.sqlite.specs.State.{HasCleanDisk};
ghost use Rattle.sqlite.specs.WalFiles.{image_at};
ghost use Rattle.director.specs.Crashes.{IsOpenedOn};

use sqlite::{Connection, Error, FileFrom, FileStore, Start};

/// Opens the database that the file at a path and its log have, whatever they hold, or makes an empty one where they hold none.
///
/// `start` stands for what they hold at first. No clause ties the files to the path.
pub fn open_database<F: Start>(
    rt: &HostRuntime,
    path: &str,
    start: F,
) -> Result<Connection<FileStore<FileFrom<F>>>, Error>
    ensures settled { IfOk result (λ conn. conn.in_transaction ≡ false) }
    ensures found { IfOk result (λ conn. HasCleanDisk (file_state conn)
        → IsOpenedOn (image_at F.Start) conn) }
{
    match Connection::open_from(rt, path, false, start) {
        Ok(conn) => Ok(conn),
        Err((error, _)) => Err(error),
    }
}
