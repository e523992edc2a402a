ghost use Rattle.std.specs.Prelude.{◌≡◌, ℕ, ◌+◌, ◌-◌, ◌<◌, ◌≤◌, ◌↔◌, ◌⊎◌, List, Some, ◌++◌, [], take, length, min};
ghost use Rattle.std.specs.Prelude.{vec_len, vec_capacity, IfOk, OnOk, IsOk, OnErr, IsErr};
ghost use Rattle.definitions.specs.Disk.{HasRisen, raised};
ghost use Rattle.definitions.specs.Streams.{HandsOut, IsUsedUp, Takes};

use crate::calls::Calls;
use crate::sink::Sink;
use crate::source::Source;
use page_core::Failed;

/// A source in memory. The calls whose numbers, counted from 0, are listed fail.
#[derive(Drop)]
pub struct MemSource {
    bytes: Vec<u8>,
    at: usize,
    calls: Calls,
    ghost within: { at ≤ vec_len bytes },
}

impl MemSource {
    ghost use Rattle.byte_streams.specs.Memory.{left_of, calls_of, failing_of};

    /// Returns a source of these bytes.
    pub fn new(bytes: Vec<u8>, failing: Vec<u64>) -> MemSource
        ensures bytes { left_of result ≡ bytes.items }
        ensures failing { failing_of result ≡ failing.items }
        ensures calls { calls_of result ≡ 0 }
        ensures faults { ⟦<MemSource as Source>⟧.faults result ≡ 0 }
    {
        MemSource {
            bytes,
            at: 0,
            calls: Calls::new(failing),
        }
    }
}

impl Source for MemSource {
    ghost use Rattle.byte_streams.specs.Memory.{FailsNext, calls_of, failing_of, faults_of, left_of};

    ghost remaining = { λ s. Some (left_of s) };

    ghost faults = { faults_of };

    fn read(&mut self, into: &mut [u8]) -> Result<usize, Failed>
        ensures count { IfOk result (λ k. k ≡ min (length into.old) (length (left_of self.old))) }
        ensures bytes { IfOk result (λ k. left_of self.old ≡ take k into.new ++ left_of self.new) }
        ensures fails { IsErr result ↔ FailsNext self.old }
        ensures failed { OnErr result (left_of self.new ≡ left_of self.old) }
        ensures failing { failing_of self.new ≡ failing_of self.old }
        ensures calls { calls_of self.new ≡ raised (calls_of self.old) }
        ensures counted { faults_of self.old ≤ faults_of self.new }
        ensures cause { OnErr result (HasRisen (faults_of self.old) (faults_of self.new)) }
    {
        self.calls.make()?;
        let count = into.len().min(self.bytes.len() - self.at);
        into[..count].copy_from_slice(&self.bytes[self.at..self.at + count]);
        self.at += count;
        Ok(count)
    }
}

/// A sink in memory, with the capacity of the vector that it was given. The calls whose numbers, counted from 0, are
/// listed fail, and so do those that bring a byte when no room is left.
#[derive(Drop)]
pub struct MemSink {
    bytes: Vec<u8>,
    room: usize,
    flushed: usize,
    calls: Calls,
    ghost roomy: { vec_len bytes + room ≤ vec_capacity bytes },
    ghost of_taken: { flushed ≤ length bytes.items },
}

impl MemSink {
    ghost use Rattle.byte_streams.specs.Memory.{flushed_of, room_of, sink_calls_of, sink_failing_of, taken_by};

    /// Returns a sink that has taken and flushed the bytes of the vector, and has the room that is left in it.
    pub fn new(bytes: Vec<u8>, failing: Vec<u64>) -> MemSink
        ensures taken { taken_by result ≡ bytes.items }
        ensures flushed { flushed_of result ≡ vec_len bytes }
        ensures room { room_of result ≡ vec_capacity bytes - vec_len bytes }
        ensures failing { sink_failing_of result ≡ failing.items }
        ensures calls { sink_calls_of result ≡ 0 }
        ensures faults { ⟦<MemSink as Sink>⟧.faults result ≡ 0 }
    {
        let room = bytes.capacity() - bytes.len();
        let flushed = bytes.len();
        MemSink {
            bytes,
            room,
            flushed,
            calls: Calls::new(failing),
        }
    }

    /// Returns the bytes taken.
    pub fn as_bytes(&self) -> &[u8]
        ensures { result.now ≡ taken_by self.now }
    {
        self.bytes.as_slice()
    }

    /// Returns how many of the bytes taken were flushed.
    pub fn flushed(&self) -> usize
        ensures { result ≡ flushed_of self.now }
    {
        self.flushed
    }
}

impl Sink for MemSink {
    ghost use Rattle.byte_streams.specs.Memory.{IsFullFor, RefusesNext, flushed_of, room_of, sink_calls_of};
    ghost use Rattle.byte_streams.specs.Memory.{sink_failing_of, sink_faults_of, taken_by};

    ghost taken = { λ s. Some (taken_by s) };

    ghost flushed = { λ s. Some (flushed_of s) };

    ghost faults = { sink_faults_of };

    ghost of_taken = { λ s. s.of_taken };

    fn write(&mut self, from: &[u8]) -> Result<usize, Failed>
        ensures count { IfOk result (λ k. k ≡ min (length from.now) (room_of self.old)) }
        ensures bytes { IfOk result (λ k. taken_by self.new ≡ taken_by self.old ++ take k from.now) }
        ensures progress { IfOk result (λ k. 0 < length from.now → 0 < k) }
        ensures fails { IsErr result ↔ (RefusesNext self.old ⊎ IsFullFor from.now self.old) }
        ensures failed { OnErr result (taken_by self.new ≡ taken_by self.old) }
        ensures flushed { flushed_of self.new ≡ flushed_of self.old }
        ensures room { IfOk result (λ k. room_of self.old ≡ room_of self.new + k) }
        ensures kept_room { OnErr result (room_of self.new ≡ room_of self.old) }
        ensures failing { sink_failing_of self.new ≡ sink_failing_of self.old }
        ensures calls { sink_calls_of self.new ≡ raised (sink_calls_of self.old) }
        ensures counted { sink_faults_of self.old ≤ sink_faults_of self.new }
        ensures cause { OnErr result (HasRisen (sink_faults_of self.old) (sink_faults_of self.new)) }
    {
        self.calls.make()?;
        let count = from.len().min(self.room);
        if count == 0 && !from.is_empty() {
            return Err(self.calls.fault());
        }
        self.bytes.extend_from_slice(&from[..count]).unwrap();
        self.room -= count;
        Ok(count)
    }

    fn flush(&mut self) -> Result<(), Failed>
        ensures same { taken_by self.new ≡ taken_by self.old }
        ensures fails { IsErr result ↔ RefusesNext self.old }
        ensures flushed { OnOk result (flushed_of self.new ≡ length (taken_by self.new)) }
        ensures unflushed { OnErr result (flushed_of self.new ≡ flushed_of self.old) }
        ensures room { room_of self.new ≡ room_of self.old }
        ensures failing { sink_failing_of self.new ≡ sink_failing_of self.old }
        ensures calls { sink_calls_of self.new ≡ raised (sink_calls_of self.old) }
        ensures counted { sink_faults_of self.old ≤ sink_faults_of self.new }
        ensures cause { OnErr result (HasRisen (sink_faults_of self.old) (sink_faults_of self.new)) }
    {
        self.calls.make()?;
        self.flushed = self.bytes.len();
        Ok(())
    }
}
