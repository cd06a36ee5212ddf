// Words in files: read whole, and written so that a failed save leaves the old file as it was.
use super::trouble::Mistake;
use std::fs::File;
use std::io::Write;
use std::{fs, io};
use words::{decode, encode};

pub fn load_words(rt: &HostRuntime, path: &str) -> Result<Vec<u32>, Mistake> {
    let bytes = fs::read(rt, path).map_err(|_| Mistake::Unreadable)?;
    Ok(decode(rt.alloc(), bytes.as_slice())?)
}

// The words go to a file beside it first, which then takes the name.
pub fn save_words(rt: &HostRuntime, path: &str, words: &[u32]) -> Result<(), Mistake> {
    let heap = rt.alloc();
    let bytes = encode(heap, words)?;
    let mut beside = String::from_str(heap, path)?;
    beside.push_str(".tmp")?;
    let file = File::create(rt, beside.as_str()).map_err(|_| Mistake::Unwritable)?;
    if write_synced(file, bytes.as_slice()).is_err()
        || fs::rename(rt, beside.as_str(), path).is_err()
    {
        let _ = fs::remove_file(rt, beside.as_str());
        return Err(Mistake::Unwritable);
    }
    Ok(())
}

// Fills a file, and waits until the disk has it.
fn write_synced(mut file: File, bytes: &[u8]) -> io::Result<()> {
    file.write_all(bytes)?;
    file.sync_all()
}
