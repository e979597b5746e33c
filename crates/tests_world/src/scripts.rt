//! Scripts of a file that is written and read, and their reports.

pub const FIRST: &[u8] = b"flr-script 1
targets 1
client 1
lfs setstripe /a
write /a 0 61*1+62*1+63*1
read /a 0 3
schedule 1*11
";

pub const FIRST_REPORT: &[u8] = b"flr-report 1
call 1.1 from 1 at 1 to 1 lfs setstripe -E -1 -S 1048576 -c 1 /a = created
call 1.2 from 2 at 5 to 6 write /a 0 61*1+62*1+63*1 = written
call 1.3 from 7 at 10 to 11 read /a 0 3 = bytes 61*1+62*1+63*1
take 0 3 65537 0.1@2
file /a size 3
layout generation 2 state 0 next 2 2 components 1
component 65537 mirror 1 flags init extent 0 EOF size 1048576 count 1 objects 0.1
schedule 1*11
";

/// A read of a file that was never written.
pub const HOLE: &[u8] = b"flr-script 1
targets 1
client 1
lfs setstripe /a
read /a 0 5
schedule 1*4
";

pub const HOLE_REPORT: &[u8] = b"flr-report 1
call 1.1 from 1 at 1 to 1 lfs setstripe -E -1 -S 1048576 -c 1 /a = created
call 1.2 from 2 at 3 to 4 read /a 0 5 = bytes -
take 0 5 65537 hole
file /a size 0
layout generation 1 state 0 next 2 2 components 1
component 65537 mirror 1 flags 0 extent 0 EOF size 1048576 count 1 objects -
schedule 1*4
";

/// A read past the end of a file.
pub const PAST: &[u8] = b"flr-script 1
targets 1
client 1
lfs setstripe /a
write /a 0 61*1+62*1+63*1
read /a 0 3
read /a 3 4
schedule 1*16
";

pub const PAST_REPORT: &[u8] = b"flr-report 1
call 1.1 from 1 at 1 to 1 lfs setstripe -E -1 -S 1048576 -c 1 /a = created
call 1.2 from 2 at 5 to 6 write /a 0 61*1+62*1+63*1 = written
call 1.3 from 7 at 10 to 11 read /a 0 3 = bytes 61*1+62*1+63*1
take 0 3 65537 0.1@2
call 1.4 from 12 at 15 to 16 read /a 3 4 = bytes -
take 3 7 65537 0.1@3
file /a size 3
layout generation 2 state 0 next 2 2 components 1
component 65537 mirror 1 flags init extent 0 EOF size 1048576 count 1 objects 0.1
schedule 1*16
";
