//! The registers. RISC-V unprivileged manual, 2.1 Programmers' Model for Base Integer ISA.

ghost use Rattle.std.specs.Prelude.{◌≡◌, ◌<◌};
ghost use Rattle.rv32_machine.specs.Table.{register_count};

use crate::word::rd;

/// The registers of a guest, and its reservation.
#[derive(Clone, Copy)]
pub struct Cpu {
    /// The address of the next instruction.
    pub pc: u32,
    /// The registers by number. Register 0 reads 0, whatever stands in its place, and takes nothing.
    pub x: [u32; 32],
    /// The address that `LR.W` reserved last, until an `SC.W` or `ECALL`.
    pub reservation: Option<u32>,
}

impl Cpu {
    ghost use Rattle.rv32_machine.specs.Table.{register, with_register, is_reserved, advanced, sets};

    // The place is read before the number is tested, so that both ways go on as one.
    #[inline(always)]
    pub(crate) fn register(&self, number: usize) -> u32
        requires { number < register_count }
        ensures { result ≡ register number self.now }
    {
        let kept = self.x[number];
        if number == 0 { 0 } else { kept }
    }

    pub(crate) fn set_register(&mut self, number: usize, value: u32)
        requires { number < register_count }
        ensures { self.new ≡ with_register number value self.old }
    {
        if number != 0 {
            self.x[number] = value;
        }
    }

    pub(crate) fn is_reserved(&self, address: u32) -> bool
        ensures { result ≡ is_reserved address self.now }
    {
        self.reservation == Some(address)
    }

    /// The next instruction follows.
    pub(crate) fn go_on(&mut self)
        ensures { self.new ≡ advanced self.old }
    {
        self.pc = self.pc.wrapping_add(4);
    }

    /// The word's rd is `n`, and the next instruction follows.
    pub(crate) fn compute(&mut self, word: u32, n: u32)
        ensures { self.new ≡ advanced (sets word n self.old) }
    {
        self.set_register(rd(word), n);
        self.go_on();
    }
}
