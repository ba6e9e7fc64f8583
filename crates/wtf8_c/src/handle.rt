// The string of a C program while a call works on it.
ghost use Rattle.std.specs.Prelude.{◌≡◌, ◌⊎◌, [], Option, Some, None, IsSome, IfSome};
ghost use Rattle.std.specs.Mem.{type_size};
ghost use denote.Memory.{lone};
ghost use prog.Memory.{align};
ghost use Rattle.wtf8.specs.UnitString.{UnitString};
ghost use Rattle.wtf8_c.specs.Ownership.{Held, held_coded, written_coded};

use crate::codes::{NO_MEMORY, OK};
use std::alloc::Global;
use std::marker::Model;
use std::mem::{align_of, size_of};
use unit_text::IndexedBuf;

/// A string of a C program: where its buffer lies, which is the program's struct. `c/wtf8.c` makes a handle of it for each
/// call, and before that has `wtf8_init` write an empty buffer if the struct holds none.
#[repr(C)]
pub struct Wtf8String {
    at: *mut u8,
    ghost buf: { UnitString } by { held_coded },
}

impl Model for Wtf8String {
    ghost use Rattle.wtf8_c.specs.Ownership.{holds_buffer};

    ghost also_owns = { λ s. holds_buffer s.at s.buf };
}

impl Wtf8String {
    ghost use types.Logic.{sem};
    ghost use Rattle.wtf8_c.specs.Lending.{LendsBuffer};

    /// The buffer, to be read or changed where it lies.
    pub(crate) fn buffer(&mut self) -> &mut IndexedBuf<Global>
        ensures* writes_back { sem 𝓛 (LendsBuffer self.entry result) }
        ensures value { result.now ≡ self.old.buf }
    {
        unsafe { &mut *(self.at as *mut IndexedBuf<Global>) }
    }
}

/// The memory of a struct of a C program, into which a buffer is written once.
#[repr(C)]
pub struct Room {
    at: *mut u8,
    ghost buf: { Option UnitString } by { written_coded },
}

impl Model for Room {
    ghost use Rattle.wtf8_c.specs.Ownership.{room_owns};

    ghost also_owns = { λ r. room_owns r.at r.buf };
}

impl Room {
    /// Writes a buffer where there is none.
    fn fill(&mut self, buf: IndexedBuf<Global>)
        requires { self.old.buf ≡ None }
        ensures value { self.new.buf ≡ Some buf }
        ensures lies { self.new.at ≡ self.old.at }
    {
        let ptr = self.at as *mut IndexedBuf<Global>;
        unsafe {
            ptr.write(buf);
        }
    }
}

/// Writes an empty buffer, which owns no memory, where there is none.
#[unsafe(no_mangle)]
pub extern "C" fn wtf8_init(alloc: Global, room: &mut Room)
    requires { room.old.buf ≡ None }
    ensures written { IsSome room.new.buf }
    ensures units { IfSome room.new.buf (λ b. b.units ≡ []) }
    ensures bytes { IfSome room.new.buf (λ b. b.bytes ≡ []) }
    ensures capacity { IfSome room.new.buf (λ b. b.capacity ≡ 0) }
    ensures lies { room.new.at ≡ room.old.at }
{
    room.fill(IndexedBuf::new(alloc));
}

/// Writes a buffer of units, with just the bytes that they take, where there is none.
#[unsafe(no_mangle)]
pub extern "C" fn wtf8_init_units(alloc: Global, room: &mut Room, units: &[u16]) -> i32
    requires { room.old.buf ≡ None }
    ensures code { (result ≡ OK) ⊎ (result ≡ NO_MEMORY) }
    ensures written { result ≡ OK → IsSome room.new.buf }
    ensures units { result ≡ OK → IfSome room.new.buf (λ b. b.units ≡ units.now) }
    ensures kept { result ≡ NO_MEMORY → room.new ≡ room.old }
    ensures empty { units.now ≡ [] → result ≡ OK }
    ensures lies { room.new.at ≡ room.old.at }
{
    match IndexedBuf::from_units(alloc, units) {
        Ok(made) => {
            room.fill(made);
            OK
        }
        Err(_) => NO_MEMORY,
    }
}

/// The number of bytes of a buffer: the size of the struct in `c/wtf8.h`, as `c/build` makes sure.
#[unsafe(no_mangle)]
pub extern "C" fn wtf8_buffer_size() -> usize
    ensures { result ≡ type_size Held }
{
    size_of::<IndexedBuf<Global>>()
}

/// The alignment of a buffer: that of the struct in `c/wtf8.h`, as `c/build` makes sure.
#[unsafe(no_mangle)]
pub extern "C" fn wtf8_buffer_alignment() -> usize
    ensures { result ≡ align (lone Held.mir) }
{
    align_of::<IndexedBuf<Global>>()
}

unsafe impl Send for Wtf8String {}
