//! Error numbers of system calls, as Linux has them on RISC-V (`errno(3)`).

ghost use Rattle.std.specs.Prelude.{◌≡◌};
ghost use Rattle.sim_base.specs.Errno.{errno_number};

/// Why a system call refused. The guest gets the negative of the number.
#[derive(Clone, Copy, Debug, PartialEq, Eq)]
pub enum Errno {
    Eperm,
    Enoent,
    Ebadf,
    Eagain,
    Eacces,
    Efault,
    Eexist,
    Einval,
    Emfile,
    Epipe,
    Enosys,
    Enotsock,
    Edestaddrreq,
    Emsgsize,
    Enoprotoopt,
    Eprotonosupport,
    Eopnotsupp,
    Eafnosupport,
    Eaddrinuse,
    Eaddrnotavail,
    Enetunreach,
    Econnreset,
    Eisconn,
    Enotconn,
    Etimedout,
    Econnrefused,
    Ealready,
    Einprogress,
}

impl Errno {
    pub fn number(self) -> u32
        ensures { result ≡ errno_number self }
    {
        match self {
            Errno::Eperm => 1,
            Errno::Enoent => 2,
            Errno::Ebadf => 9,
            Errno::Eagain => 11,
            Errno::Eacces => 13,
            Errno::Efault => 14,
            Errno::Eexist => 17,
            Errno::Einval => 22,
            Errno::Emfile => 24,
            Errno::Epipe => 32,
            Errno::Enosys => 38,
            Errno::Enotsock => 88,
            Errno::Edestaddrreq => 89,
            Errno::Emsgsize => 90,
            Errno::Enoprotoopt => 92,
            Errno::Eprotonosupport => 93,
            Errno::Eopnotsupp => 95,
            Errno::Eafnosupport => 97,
            Errno::Eaddrinuse => 98,
            Errno::Eaddrnotavail => 99,
            Errno::Enetunreach => 101,
            Errno::Econnreset => 104,
            Errno::Eisconn => 106,
            Errno::Enotconn => 107,
            Errno::Etimedout => 110,
            Errno::Econnrefused => 111,
            Errno::Ealready => 114,
            Errno::Einprogress => 115,
        }
    }
}
