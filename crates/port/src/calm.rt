//! A shelf, a link and a sink in memory that never fail.

ghost use Rattle.std.specs.Prelude.{◌≡◌, ◌<◌, ◌≤◌, [], Some, MatchResult, length, take};
ghost use Rattle.port.specs.Told.{Loses};
ghost use Rattle.port.specs.Files.{held_by, place_of};

use crate::pieces::Pieces;
use crate::{Bytes, IoFault, Link, Move, Shelf, Sink};
use std::alloc::Global;

/// The most bytes of a file that a read gives.
const FILE_LIMIT: usize = 1_048_577;

/// A shelf in memory that never fails: a name that it doesn't hold stands for no bytes.
#[derive(Drop)]
pub struct CalmShelf {
    alloc: Global,
    files: Vec<(String, Vec<u8>)>,
}

impl CalmShelf {
    ghost use Rattle.port.specs.Calm.{files_in};

    /// A shelf of these files: of two with one name the first stands. It takes no memory.
    pub fn new(alloc: Global, files: Vec<(String, Vec<u8>)>) -> Self
        ensures holds { ⟦<CalmShelf as Shelf>⟧.holds result ≡ Some (held_by files.items) }
        ensures faults { ⟦<CalmShelf as Shelf>⟧.faults result ≡ 0 }
        ensures files { files_in result ≡ files.items }
    {
        CalmShelf { alloc, files }
    }

    /// The place of the first file of this name.
    pub(crate) fn place(&self, name: &str) -> Option<usize>
        ensures { result ≡ place_of (files_in self.now) name.now }
    {
        self.files.iter().position(|file| file.0.as_str() == name)
    }
}

impl Shelf for CalmShelf {
    ghost use Rattle.port.specs.Calm.{files_in};

    ghost holds = { λ s. Some (held_by (files_in s)) };

    ghost faults = { λ _. 0 };

    fn read(&mut self, name: &str) -> Result<Vec<u8>, IoFault>
        ensures held { MatchResult result
            (λ bytes. bytes.items ≡ take 1048577 (held_by (files_in self.old) name.now))
            (λ fault. fault ≡ IoFault.Memory) }
        ensures files { files_in self.new ≡ files_in self.old }
    {
        let Some(place) = self.place(name) else {
            return Ok(Vec::new(self.alloc));
        };
        let bytes = &self.files[place].1;
        let count = bytes.len().min(FILE_LIMIT);
        Ok(Vec::from_slice(self.alloc, &bytes[..count])?)
    }

    fn write(&mut self, name: &str, bytes: &[u8]) -> Result<(), IoFault> {
        let bytes = Vec::from_slice(self.alloc, bytes)?;
        match self.place(name) {
            Some(place) => self.files[place].1 = bytes,
            None => self
                .files
                .push((String::from_str(self.alloc, name)?, bytes))?,
        }
        Ok(())
    }
}

/// A link in memory that never fails. Its input comes in pieces, and a write takes at most so many bytes.
#[derive(Drop)]
pub struct CalmLink {
    alloc: Global,
    input: Pieces,
    most: u64,
    log: Vec<Move>,
    ghost takes: { 1 ≤ most },
}

impl CalmLink {
    ghost use Rattle.port.specs.Calm.{pieces_left, most_of};
    ghost use Rattle.port.specs.Pieces.{pieces_of, joined};

    /// A link whose input is these pieces, and whose writes take at most `most` bytes. One read
    /// gives bytes of one piece only, and empty pieces are passed over. It takes no memory.
    pub fn new(alloc: Global, pieces: Vec<Vec<u8>>, most: u64) -> Self
        requires { 1 ≤ most }
        ensures log { ⟦<CalmLink as Link>⟧.log result ≡ Some [] }
        ensures left { ⟦<CalmLink as Link>⟧.left result ≡ Some (joined (pieces_of pieces.items)) }
        ensures read_faults { ⟦<CalmLink as Link>⟧.read_faults result ≡ 0 }
        ensures write_faults { ⟦<CalmLink as Link>⟧.write_faults result ≡ 0 }
        ensures pieces { pieces_left result ≡ pieces_of pieces.items }
        ensures most { most_of result ≡ most }
    {
        CalmLink {
            alloc,
            input: Pieces::new(alloc, pieces),
            most,
            log: Vec::new(alloc),
        }
    }

    /// The moves so far.
    pub fn log(&self) -> &[Move]
        ensures { ⟦<CalmLink as Link>⟧.log self.now ≡ Some result.now }
    {
        &self.log
    }
}

impl Link for CalmLink {
    ghost use Rattle.port.specs.Calm.{Gives, Takes, IsStill, log_of, left_of};

    ghost log = { λ m. Some (log_of m) };

    ghost left = { left_of };

    ghost read_faults = { λ _. 0 };

    ghost write_faults = { λ _. 0 };

    fn read(&mut self, into: &mut [u8]) -> Result<usize, IoFault>
        requires { 0 < length into.old }
        ensures given { MatchResult result
            (λ count. Gives self.old self.new into.old into.new count)
            (λ fault. (fault ≡ IoFault.Memory) × IsStill self.old self.new) }
        ensures taken { MatchResult result
            (λ n. Loses (left_of self.old) (left_of self.new) (take n into.new))
            (λ _. left_of self.new ≡ left_of self.old) }
    {
        let front = self.input.front();
        let count = front.len().min(into.len());
        into[..count].copy_from_slice(&front[..count]);
        let given = Bytes::from_slice(self.alloc, &into[..count])?;
        self.log.push(Move::In(given))?;
        self.input.pass(count);
        Ok(count)
    }

    fn write(&mut self, bytes: &[u8]) -> Result<usize, IoFault>
        requires { 0 < length bytes.now }
        ensures { MatchResult result
            (λ count. Takes self.old self.new bytes.now count)
            (λ fault. (fault ≡ IoFault.Memory) × IsStill self.old self.new) }
    {
        let count = (bytes.len() as u64).min(self.most) as usize;
        let taken = Bytes::from_slice(self.alloc, &bytes[..count])?;
        self.log.push(Move::Out(taken))?;
        Ok(count)
    }
}

/// A sink in memory that never fails. Each write takes all of its bytes.
#[derive(Drop)]
pub struct CalmSink {
    bytes: Vec<u8>,
}

impl CalmSink {
    /// A sink without bytes. It takes no memory.
    pub fn new(alloc: Global) -> Self
        ensures told { ⟦<CalmSink as Sink>⟧.told result ≡ Some [] }
        ensures faults { ⟦<CalmSink as Sink>⟧.faults result ≡ 0 }
    {
        CalmSink {
            bytes: Vec::new(alloc),
        }
    }

    /// The bytes that were written so far.
    pub fn bytes(&self) -> &[u8]
        ensures { ⟦<CalmSink as Sink>⟧.told self.now ≡ Some result.now }
    {
        &self.bytes
    }
}

impl Sink for CalmSink {
    ghost use Rattle.port.specs.Calm.{TakesAll, bytes_in};

    ghost told = { λ s. Some s.bytes.items };

    ghost faults = { λ _. 0 };

    fn write(&mut self, bytes: &[u8]) -> Result<usize, IoFault>
        requires { 0 < length bytes.now }
        ensures { MatchResult result
            (λ count. TakesAll self.old self.new bytes.now count)
            (λ fault. (fault ≡ IoFault.Memory) × (bytes_in self.new ≡ bytes_in self.old)) }
    {
        self.bytes.extend_from_slice(bytes)?;
        Ok(bytes.len())
    }
}
