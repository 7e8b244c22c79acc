// A source and a sink in memory. They tell all, and fail at the calls that they are told.
ghost use Rattle.std.specs.Prelude.{◌≡◌, ◌<◌, ◌≤◌, ◌-◌, ◌↔◌, ◌⊎◌, min, [], length, Contains, IfOk, Some};
ghost use Rattle.dn_io.specs.Streams.{Reads, Writes, Rose};
ghost use Rattle.dn_io.specs.Memory.{AfterRead, AfterWrite, IfTook, IfPut};

use crate::{NoMemory, Put, Sink, Source, Took};
use std::alloc::Global;
use std::marker::Model;

/// A source in memory. Calls are numbered from 0; it fails at the calls that it was told.
///
/// Seen as `Giving` of `specs/Memory.antt`.
#[derive(Drop)]
pub struct MemSource {
    bytes: Vec<u8>,
    at: usize,
    fails: Vec<u64>,
    piece: u64,
    calls: u64,
    failed: u64,
}

impl Model for MemSource {
    ghost use Rattle.std.specs.Prelude.{◌≤◌, drop, vec_len};
    ghost use Rattle.dn_io.specs.Memory.{Giving};

    ghost Value = { Giving };

    ghost view = { λ m. record { left = drop m.at m.bytes.items; fails = m.fails.items; piece = m.piece; calls = m.calls; failed = m.failed } };

    ghost invariant = { λ m. (m.at ≤ vec_len m.bytes) × (1 ≤ m.piece) };
}

impl MemSource {
    /// A source that gives these bytes, at most `piece` at a call, and fails at the calls whose
    /// numbers stand in `fails`.
    pub fn new(bytes: Vec<u8>, fails: Vec<u64>, piece: u64) -> MemSource
        requires { 1 ≤ piece }
        ensures { result ≡ record { left = bytes.items; fails = fails.items; piece = piece; calls = 0; failed = 0 } }
    {
        MemSource {
            bytes,
            at: 0,
            fails,
            piece,
            calls: 0,
            failed: 0,
        }
    }

    /// The bytes that are left.
    pub fn as_slice(&self) -> &[u8]
        ensures { result.now ≡ self.now.left }
    {
        &self.bytes[self.at..]
    }

    /// How many calls have failed.
    pub fn failed_calls(&self) -> u64
        ensures { result ≡ self.now.failed }
    {
        self.failed
    }
}

impl Source for MemSource {
    ghost left = { λ m. Some m.left };

    ghost faults = { λ m. m.failed };

    fn read(&mut self, into: &mut [u8]) -> Took
        requires { 0 < length into.old }
        ensures bytes { Reads result (Some self.old.left) (Some self.new.left) into.new }
        ensures failed { result ≡ Took.Failed → Rose self.old.failed self.new.failed }
        ensures later { self.old.failed ≤ self.new.failed }

        // It fails at the calls that it was told, and at no others.
        ensures told { (result ≡ Took.Failed) ↔ Contains self.old.fails self.old.calls }
        ensures amount { IfTook result
            (λ n. n ≡ min (min (length self.old.left) self.old.piece) (length into.old)) }
        ensures after { AfterRead result self.old self.new }
    {
        let call = self.calls;
        self.calls = call.saturating_add(1);
        if self.fails.contains(&call) {
            self.failed = self.failed.saturating_add(1);
            return Took::Failed;
        }
        let left = self.bytes.len() - self.at;
        if left == 0 {
            return Took::End;
        }
        let count = (left as u64).min(self.piece).min(into.len() as u64);
        let n = count as usize;
        into[..n].copy_from_slice(&self.bytes[self.at..self.at + n]);
        self.at += n;
        Took::Bytes(count)
    }
}

/// A sink in memory, up to its room. Calls are numbered from 0; it fails at the calls that it was
/// told, and where its room is used up. Its writes take no memory.
///
/// Seen as `Taking` of `specs/Memory.antt`.
#[derive(Drop)]
pub struct MemSink {
    bytes: Vec<u8>,
    room: u64,
    fails: Vec<u64>,
    piece: u64,
    calls: u64,
    failed: u64,
}

impl Model for MemSink {
    ghost use Rattle.std.specs.Prelude.{◌≤◌, vec_len, vec_capacity};
    ghost use Rattle.dn_io.specs.Memory.{Taking};

    ghost Value = { Taking };

    ghost view = { λ m. record { held = m.bytes.items; room = m.room; fails = m.fails.items; piece = m.piece; calls = m.calls; failed = m.failed } };

    ghost invariant = { λ m. (vec_len m.bytes ≤ m.room) × (m.room ≤ vec_capacity m.bytes) × (1 ≤ m.piece) };
}

impl MemSink {
    /// An empty sink with room for `room` bytes, whose memory it takes here. It takes at most `piece`
    /// bytes at a call, and fails at the calls whose numbers stand in `fails`.
    pub fn new(alloc: Global, fails: Vec<u64>, piece: u64, room: u64) -> Result<MemSink, NoMemory>
        requires { 1 ≤ piece }
        ensures { IfOk result (λ made. made ≡ record {
          held = [];
          room = room;
          fails = fails.items;
          piece = piece;
          calls = 0;
          failed = 0;
        }) }
    {
        Ok(MemSink {
            bytes: Vec::with_capacity(alloc, room as usize)?,
            room,
            fails,
            piece,
            calls: 0,
            failed: 0,
        })
    }

    /// The bytes that it holds.
    pub fn as_slice(&self) -> &[u8]
        ensures { result.now ≡ self.now.held }
    {
        self.bytes.as_slice()
    }

    /// How many calls have failed.
    pub fn failed_calls(&self) -> u64
        ensures { result ≡ self.now.failed }
    {
        self.failed
    }
}

impl Sink for MemSink {
    ghost holds = { λ m. Some m.held };

    ghost faults = { λ m. m.failed };

    fn write(&mut self, piece: &[u8]) -> Put
        ensures bytes { Writes result (Some self.old.held) (Some self.new.held) piece.now }
        ensures failed { result ≡ Put.Failed → Rose self.old.failed self.new.failed }
        ensures later { self.old.failed ≤ self.new.failed }

        // It fails at the calls that it was told and where its room is used up, and nowhere else.
        ensures told { (result ≡ Put.Failed) ↔ (Contains self.old.fails self.old.calls
            ⊎ ((0 < length piece.now) × (length self.old.held ≡ self.old.room))) }
        ensures amount { IfPut result
            (λ n. n ≡ min (min (length piece.now) self.old.piece) (self.old.room - length self.old.held)) }
        ensures after { AfterWrite result piece.now self.old self.new }
    {
        let call = self.calls;
        self.calls = call.saturating_add(1);
        let room = self.room - self.bytes.len() as u64;
        if self.fails.contains(&call) || (room == 0 && !piece.is_empty()) {
            self.failed = self.failed.saturating_add(1);
            return Put::Failed;
        }
        let count = (piece.len() as u64).min(self.piece).min(room);
        self.bytes
            .extend_from_slice(&piece[..count as usize])
            .unwrap();
        Put::Bytes(count)
    }
}
