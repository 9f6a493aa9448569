//! Calls of a process to the kernel.

ghost use Rattle.std.specs.Prelude.{◌≡◌, ◌≤◌, IfSome, length, true};
ghost use Rattle.xinu_base.specs.Syscalls as syscalls;

/// A call: its number is in register a7, its arguments are in a0 to a5.
#[derive(Clone, Copy, PartialEq, Eq)]
pub struct Call {
    /// The number of the call.
    pub number: u32,
    /// The arguments.
    pub args: [u32; 6],
}

/// How a call went.
#[derive(Clone, Copy, PartialEq, Eq)]
pub enum Next {
    /// It was answered.
    Returns(i32),
    /// Its caller waits.
    Waits,
    /// Its caller is dead.
    Gone,
    /// The kernel panicked.
    Panics,
}

/// How many calls there are, numbered from 1 on.
pub const CALLS: u32 = 44;

/// What a call is about: the layers that carry it out.
#[derive(Clone, Copy, PartialEq, Eq)]
pub enum Family {
    /// Processes, memory, semaphores, messages and the clock.
    Processes,
    /// Buffer pools and ports.
    Ports,
    /// Devices and the name space.
    Devices,
}

/// The calls of the kernel, a row each, by their families: the number, the name, how many arguments it takes, and how it is
/// begun over the state `$k` with the arguments `$args`. The rows are handed to the macro `$arms`, which writes the arms of a body.
#[macro_export]
macro_rules! each_call {
    ($arms:ident, $k:ident, $args:ident) => {
        $arms! {
            Processes {
                1 "getpid" 0 getpid($k);
                2 "create" 6 create(
                    $k,
                    Creation {
                        entry: $args[0],
                        stack: $args[1],
                        priority: half($args[2]),
                        args: ($args[4], $args[5]),
                    },
                    $args[3],
                );
                3 "resume" 1 resume($k, $args[0]);
                4 "suspend" 1 suspend($k, $args[0]);
                5 "kill" 1 kill($k, $args[0]);
                6 "yield" 0 yield_now($k);
                7 "chprio" 2 chprio($k, $args[0], half($args[1]));
                8 "getprio" 1 getprio($k, $args[0]);
                9 "exit" 0 exit($k);
                10 "getmem" 1 getmem($k, $args[0]);
                11 "freemem" 2 freemem($k, $args[0], $args[1]);
                12 "getstk" 1 getstk($k, $args[0]);
                13 "freestk" 2 freestk($k, $args[0], $args[1]);
                14 "semcreate" 1 semcreate($k, signed($args[0]));
                15 "semdelete" 1 semdelete($k, $args[0]);
                16 "semreset" 2 semreset($k, $args[0], signed($args[1]));
                17 "semcount" 1 semcount($k, $args[0]);
                18 "wait" 1 wait($k, $args[0]);
                19 "signal" 1 signal($k, $args[0]);
                20 "signaln" 2 signaln($k, $args[0], signed($args[1]));
                21 "send" 2 send($k, $args[0], $args[1]);
                22 "receive" 0 receive($k);
                23 "recvclr" 0 recvclr($k);
                24 "recvtime" 1 recvtime($k, signed($args[0]));
                25 "sleep" 1 sleep($k, signed($args[0]));
                26 "sleepms" 1 sleepms($k, signed($args[0]));
                27 "clktime" 0 clktime($k);
            }
            Ports {
                28 "mkbufpool" 2 mkbufpool($k, $args[0], $args[1]);
                29 "getbuf" 1 getbuf($k, $args[0]);
                30 "freebuf" 1 freebuf($k, $args[0]);
                31 "ptcreate" 1 ptcreate($k, signed($args[0]));
                32 "ptdelete" 2 ptdelete($k, $args[0], $args[1]);
                33 "ptreset" 2 ptreset($k, $args[0], $args[1]);
                34 "ptsend" 2 ptsend($k, $args[0], $args[1]);
                35 "ptrecv" 1 ptrecv($k, $args[0]);
            }
            Devices {
                36 "open" 3 device_open($k, $args[0], $args[1], $args[2]);
                37 "close" 1 device_close($k, $args[0]);
                38 "read" 3 device_read($k, $args[0], $args[1], $args[2]);
                39 "write" 3 device_write($k, $args[0], $args[1], $args[2]);
                40 "getc" 1 device_getc($k, $args[0]);
                41 "putc" 2 device_putc($k, $args[0], $args[1]);
                42 "seek" 2 device_seek($k, $args[0], $args[1]);
                43 "control" 3 device_control($k, $args[0], $args[1], $args[2]);
                44 "mount" 3 mount($k, $args[0], $args[1], $args[2]);
            }
        }
    };
}

/// The family of the call of this number, if it has a call.
pub fn family_of(number: u32) -> Option<Family>
    ensures family { result ≡ syscalls.family_of number }
    ensures listed { IfSome result (λ family. syscalls.is_of family number ≡ true) }
{
    macro_rules! families {
        ($($family:ident { $($number:literal $name:literal $count:literal $begin:expr;)* })*) => {
            match number {
                $($($number => Some(Family::$family),)*)*
                _ => None,
            }
        };
    }
    each_call!(families, k, args)
}

/// Whether the number has a call.
pub fn is_call(number: u32) -> bool
    ensures { result ≡ syscalls.is_call number }
{
    family_of(number).is_some()
}

/// The name of the call of this number, and `unknown` for a number that has none.
pub fn call_name(number: u32) -> &'static str
    ensures name { result.now ≡ syscalls.name_of number }
    ensures short { length result.now ≤ 9 }
{
    macro_rules! names {
        ($($family:ident { $($number:literal $name:literal $count:literal $begin:expr;)* })*) => {
            match number {
                $($($number => $name,)*)*
                _ => "unknown",
            }
        };
    }
    each_call!(names, k, args)
}

/// How many arguments the call of this number takes. A number that has no call takes one.
pub fn call_args(number: u32) -> usize
    ensures args { result ≡ syscalls.args_of number }
    ensures few { result ≤ 6 }
{
    macro_rules! counts {
        ($($family:ident { $($number:literal $name:literal $count:literal $begin:expr;)* })*) => {
            match number {
                $($($number => $count,)*)*
                _ => 1,
            }
        };
    }
    each_call!(counts, k, args)
}
