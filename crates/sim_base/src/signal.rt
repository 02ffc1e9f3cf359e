//! Signals, with the numbers that Linux gives them on RISC-V (`signal(7)`). Each ends the process.

ghost use Rattle.std.specs.Prelude.{◌≡◌};
ghost use Rattle.sim_base.specs.Signal.{signal_number, signal_name};

/// A signal that ends a process.
#[derive(Clone, Copy)]
pub enum Signal {
    SigHup,
    SigInt,
    SigQuit,
    SigIll,
    SigTrap,
    SigAbrt,
    SigBus,
    SigFpe,
    SigKill,
    SigUsr1,
    SigSegv,
    SigUsr2,
    SigPipe,
    SigAlrm,
    SigTerm,
    SigXcpu,
}

impl Signal {
    pub fn number(self) -> u8
        ensures { result ≡ signal_number self }
    {
        match self {
            Signal::SigHup => 1,
            Signal::SigInt => 2,
            Signal::SigQuit => 3,
            Signal::SigIll => 4,
            Signal::SigTrap => 5,
            Signal::SigAbrt => 6,
            Signal::SigBus => 7,
            Signal::SigFpe => 8,
            Signal::SigKill => 9,
            Signal::SigUsr1 => 10,
            Signal::SigSegv => 11,
            Signal::SigUsr2 => 12,
            Signal::SigPipe => 13,
            Signal::SigAlrm => 14,
            Signal::SigTerm => 15,
            Signal::SigXcpu => 24,
        }
    }

    /// The name in upper case, as `SIGTERM`.
    pub fn name(self) -> &'static str
        ensures { result.now ≡ signal_name self }
    {
        match self {
            Signal::SigHup => "SIGHUP",
            Signal::SigInt => "SIGINT",
            Signal::SigQuit => "SIGQUIT",
            Signal::SigIll => "SIGILL",
            Signal::SigTrap => "SIGTRAP",
            Signal::SigAbrt => "SIGABRT",
            Signal::SigBus => "SIGBUS",
            Signal::SigFpe => "SIGFPE",
            Signal::SigKill => "SIGKILL",
            Signal::SigUsr1 => "SIGUSR1",
            Signal::SigSegv => "SIGSEGV",
            Signal::SigUsr2 => "SIGUSR2",
            Signal::SigPipe => "SIGPIPE",
            Signal::SigAlrm => "SIGALRM",
            Signal::SigTerm => "SIGTERM",
            Signal::SigXcpu => "SIGXCPU",
        }
    }
}
