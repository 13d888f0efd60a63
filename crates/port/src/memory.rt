//! A shelf, a link and a sink in memory whose calls fail where a list says so.

ghost use Rattle.std.specs.Prelude.{◌≡◌, ◌<◌, ◌≤◌, ◌↔◌, ◌⊎◌, [], Some, Result, MatchResult, IfOk, OnOk, length, take};
ghost use Rattle.port.specs.Faults.{HasCause};
ghost use Rattle.port.specs.Files.{held_by, ChangesOnly, IsMissing, Keeps};
ghost use Rattle.port.specs.Pieces.{joined, pieces_of};
ghost use Rattle.port.specs.Plan.{faults_of, FailsNext, IsNew, CallsOnce};
ghost use Rattle.port.specs.Told.{Loses};
ghost use Rattle.port.specs.Calm.{Gives, Takes, TakesAll, IsStill, pieces_left, left_of, most_of, log_of, bytes_in};
ghost use Rattle.port.specs.Mem.{calls_of, files_of, reads_of, writes_of, link_in, notes_of, sink_in};

use crate::plan::Plan;
use crate::{CalmLink, CalmShelf, CalmSink, IoFault, Link, Move, Shelf, Sink};
use std::alloc::Global;

/// A shelf in memory. The calls whose numbers are listed fail, and a read of a name that it doesn't
/// hold is a fault.
#[derive(Drop)]
pub struct MemShelf {
    calm: CalmShelf,
    plan: Plan,
}

impl MemShelf {
    /// A shelf of these files: of two with one name the first stands. Reads and writes are
    /// numbered together from 0, and those in `fail` fail. It takes no memory.
    pub fn new(alloc: Global, files: Vec<(String, Vec<u8>)>, fail: Vec<u64>) -> Self
        ensures holds { ⟦<MemShelf as Shelf>⟧.holds result ≡ Some (held_by files.items) }
        ensures faults { ⟦<MemShelf as Shelf>⟧.faults result ≡ 0 }
        ensures files { files_of result ≡ files.items }
        ensures calls { IsNew (calls_of result) fail.items }
    {
        MemShelf {
            calm: CalmShelf::new(alloc, files),
            plan: Plan::new(fail),
        }
    }
}

impl Shelf for MemShelf {
    ghost holds = { λ s. Some (held_by (files_of s)) };

    ghost faults = { λ s. faults_of (calls_of s) };

    fn read(&mut self, name: &str) -> Result<Vec<u8>, IoFault>
        // A call fails exactly where its number is listed, or the name isn't held.
        ensures listed { (result ≡ Result.Err IoFault.Failed)
            ↔ (FailsNext (calls_of self.old) ⊎ IsMissing (files_of self.old) name.now) }
        ensures counted { CallsOnce (calls_of self.old) (calls_of self.new) }
        ensures files { files_of self.new ≡ files_of self.old }
        ensures held { IfOk result
            (λ bytes. bytes.items ≡ take 1048577 (held_by (files_of self.old) name.now)) }
        ensures cause { HasCause result (faults_of (calls_of self.old)) (faults_of (calls_of self.new)) }
    {
        match self.plan.next() {
            Err(fault) => Err(fault),
            Ok(()) => match self.calm.place(name) {
                None => Err(self.plan.fault()),
                Some(_) => self.calm.read(name),
            },
        }
    }

    fn write(&mut self, name: &str, bytes: &[u8]) -> Result<(), IoFault>
        // A call fails exactly where its number is listed.
        ensures listed { (result ≡ Result.Err IoFault.Failed) ↔ FailsNext (calls_of self.old) }
        ensures counted { CallsOnce (calls_of self.old) (calls_of self.new) }
        ensures kept { OnOk result (Keeps (Some (held_by (files_of self.new))) name.now bytes.now) }
        ensures others { ChangesOnly
            (Some (held_by (files_of self.old))) (Some (held_by (files_of self.new))) name.now }
        ensures cause { HasCause result (faults_of (calls_of self.old)) (faults_of (calls_of self.new)) }
    {
        match self.plan.next() {
            Err(fault) => Err(fault),
            Ok(()) => self.calm.write(name, bytes),
        }
    }
}

/// A link in memory. The reads and the writes whose numbers are listed fail.
#[derive(Drop)]
pub struct MemLink {
    calm: CalmLink,
    reads: Plan,
    writes: Plan,
}

impl MemLink {
    /// A link whose input is these pieces, and whose writes take at most `most` bytes. One read
    /// gives bytes of one piece only, and empty pieces are passed over. Reads and writes are
    /// numbered apart, each from 0, and those in the lists fail. It takes no memory.
    pub fn new(
        alloc: Global,
        pieces: Vec<Vec<u8>>,
        fail_reads: Vec<u64>,
        fail_writes: Vec<u64>,
        most: u64,
    ) -> Self
        requires { 1 ≤ most }
        ensures log { ⟦<MemLink as Link>⟧.log result ≡ Some [] }
        ensures left { ⟦<MemLink as Link>⟧.left result ≡ Some (joined (pieces_of pieces.items)) }
        ensures read_faults { ⟦<MemLink as Link>⟧.read_faults result ≡ 0 }
        ensures write_faults { ⟦<MemLink as Link>⟧.write_faults result ≡ 0 }
        ensures pieces { pieces_left (link_in result) ≡ pieces_of pieces.items }
        ensures most { most_of (link_in result) ≡ most }
        ensures reads { IsNew (reads_of result) fail_reads.items }
        ensures writes { IsNew (writes_of result) fail_writes.items }
    {
        MemLink {
            calm: CalmLink::new(alloc, pieces, most),
            reads: Plan::new(fail_reads),
            writes: Plan::new(fail_writes),
        }
    }

    /// The moves so far.
    pub fn log(&self) -> &[Move]
        ensures { ⟦<MemLink as Link>⟧.log self.now ≡ Some result.now }
    {
        self.calm.log()
    }
}

impl Link for MemLink {
    ghost log = { λ m. Some (log_of (link_in m)) };

    ghost left = { λ m. left_of (link_in m) };

    ghost read_faults = { λ m. faults_of (reads_of m) };

    ghost write_faults = { λ m. faults_of (writes_of m) };

    fn read(&mut self, into: &mut [u8]) -> Result<usize, IoFault>
        requires { 0 < length into.old }

        // A read fails exactly where its number is listed.
        ensures listed { (result ≡ Result.Err IoFault.Failed) ↔ FailsNext (reads_of self.old) }
        ensures counted { CallsOnce (reads_of self.old) (reads_of self.new) }
        ensures given { MatchResult result
            (λ count. Gives (link_in self.old) (link_in self.new) into.old into.new count)
            (λ _. IsStill (link_in self.old) (link_in self.new)) }
        ensures taken { MatchResult result
            (λ n. Loses (left_of (link_in self.old)) (left_of (link_in self.new)) (take n into.new))
            (λ _. left_of (link_in self.new) ≡ left_of (link_in self.old)) }
        ensures cause { HasCause result (faults_of (reads_of self.old)) (faults_of (reads_of self.new)) }
        ensures writes { writes_of self.new ≡ writes_of self.old }
    {
        match self.reads.next() {
            Err(fault) => Err(fault),
            Ok(()) => self.calm.read(into),
        }
    }

    fn write(&mut self, bytes: &[u8]) -> Result<usize, IoFault>
        requires { 0 < length bytes.now }

        // A write fails exactly where its number is listed.
        ensures listed { (result ≡ Result.Err IoFault.Failed) ↔ FailsNext (writes_of self.old) }
        ensures counted { CallsOnce (writes_of self.old) (writes_of self.new) }
        ensures taken { MatchResult result
            (λ count. Takes (link_in self.old) (link_in self.new) bytes.now count)
            (λ _. IsStill (link_in self.old) (link_in self.new)) }
        ensures cause { HasCause result (faults_of (writes_of self.old)) (faults_of (writes_of self.new)) }
        ensures reads { reads_of self.new ≡ reads_of self.old }
    {
        match self.writes.next() {
            Err(fault) => Err(fault),
            Ok(()) => self.calm.write(bytes),
        }
    }
}

/// A sink in memory. The writes whose numbers are listed fail; each other one takes all of its bytes.
#[derive(Drop)]
pub struct MemSink {
    calm: CalmSink,
    plan: Plan,
}

impl MemSink {
    /// A sink without bytes, whose writes in `fail`, numbered from 0, fail. It takes no memory.
    pub fn new(alloc: Global, fail: Vec<u64>) -> Self
        ensures told { ⟦<MemSink as Sink>⟧.told result ≡ Some [] }
        ensures faults { ⟦<MemSink as Sink>⟧.faults result ≡ 0 }
        ensures calls { IsNew (notes_of result) fail.items }
    {
        MemSink {
            calm: CalmSink::new(alloc),
            plan: Plan::new(fail),
        }
    }

    /// The bytes that were written so far.
    pub fn bytes(&self) -> &[u8]
        ensures { ⟦<MemSink as Sink>⟧.told self.now ≡ Some result.now }
    {
        self.calm.bytes()
    }
}

impl Sink for MemSink {
    ghost told = { λ s. Some (bytes_in (sink_in s)) };

    ghost faults = { λ s. faults_of (notes_of s) };

    fn write(&mut self, bytes: &[u8]) -> Result<usize, IoFault>
        requires { 0 < length bytes.now }

        // A write fails exactly where its number is listed.
        ensures listed { (result ≡ Result.Err IoFault.Failed) ↔ FailsNext (notes_of self.old) }
        ensures counted { CallsOnce (notes_of self.old) (notes_of self.new) }
        ensures taken { MatchResult result
            (λ count. TakesAll (sink_in self.old) (sink_in self.new) bytes.now count)
            (λ _. bytes_in (sink_in self.new) ≡ bytes_in (sink_in self.old)) }
        ensures cause { HasCause result (faults_of (notes_of self.old)) (faults_of (notes_of self.new)) }
    {
        match self.plan.next() {
            Err(fault) => Err(fault),
            Ok(()) => self.calm.write(bytes),
        }
    }
}
