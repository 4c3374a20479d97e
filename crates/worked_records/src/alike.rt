//! Runs one after another that print the same.
use std::io;

/// Such runs: how many calls came before the failures in the first and the last of them.
#[derive(Drop)]
pub(crate) struct Alike {
    first: u64,
    last: u64,
    printed: String,
}

impl Alike {
    /// Adds the next run, after so many calls: to those before it, or as the first of others, and then those before it are written.
    pub fn add(
        host: &HostRuntime,
        alike: &mut Option<Alike>,
        calls: u64,
        printed: String,
    ) -> io::Result<()> {
        match alike {
            Some(it) if it.printed == printed => it.last = calls,
            _ => {
                Alike::put(host, alike.as_ref())?;
                *alike = Some(Alike {
                    first: calls,
                    last: calls,
                    printed,
                });
            }
        }
        Ok(())
    }

    /// Writes these runs, where there are some, in one line.
    pub fn put(host: &HostRuntime, alike: Option<&Alike>) -> io::Result<()> {
        match alike {
            Some(it) => println!(host; "  after {} to {}: {}", it.first, it.last, it.printed),
            None => Ok(()),
        }
    }
}
