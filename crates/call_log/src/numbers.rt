//! The numbers of the system calls that are served, each by the call's name in Linux (`include/uapi/asm-generic/unistd.h`).

pub const DUP: u32 = 23;

pub const DUP3: u32 = 24;

pub const IOCTL: u32 = 29;

pub const MKDIRAT: u32 = 34;

pub const UNLINKAT: u32 = 35;

pub const OPENAT: u32 = 56;

pub const CLOSE: u32 = 57;

pub const PIPE2: u32 = 59;

pub const GETDENTS64: u32 = 61;

pub const LLSEEK: u32 = 62;

pub const READ: u32 = 63;

pub const WRITE: u32 = 64;

pub const READV: u32 = 65;

pub const WRITEV: u32 = 66;

pub const EXIT: u32 = 93;

pub const EXIT_GROUP: u32 = 94;

pub const WAITID: u32 = 95;

pub const SET_TID_ADDRESS: u32 = 96;

pub const SCHED_YIELD: u32 = 124;

pub const GETPID: u32 = 172;

pub const GETPPID: u32 = 173;

pub const GETTID: u32 = 178;

pub const BRK: u32 = 214;

pub const MUNMAP: u32 = 215;

pub const CLONE: u32 = 220;

pub const EXECVE: u32 = 221;

pub const MMAP2: u32 = 222;
