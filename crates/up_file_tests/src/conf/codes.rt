//! Which fault a file has, and at which line.
use crate::conf::{check, is_read};
use std::test::Fail;

// In each row a file, and the line and the number of its fault.
const FAULTS: &'static str = "\
# Each code, but for a file that is too large.||
task\nbogus x\n|2|1||
manual\nbogus x\n|2|1||
# a\n# b\nsetuid root\n|3|2||
\ndescription\n|2|3||
task x\n|1|4||
task\nexec 'a\n\n|2|5||
\nscript\nx\n|2|6||
exec a\\|1|7||
start on a\nstop on\n|2|8||
start on a X=1 b\n|1|9||
task\nkill timeout +5\n|2|10||
kill signal SIGX\n|1|11||
export A\nexport A=\n|2|12||
start on a [[:x:]]\n|1|13||
task\n\ninstance ${A\n|3|14||
# Stanzas that are left out.||
expect fork\n|1|2||
chroot /x\n|1|2||
setuid a\n|1|2||
setgid a\n|1|2||
umask 022\n|1|2||
nice 5\n|1|2||
limit nofile 1 2\n|1|2||
oom score 0\n|1|2||
apparmor load /x\n|1|2||
cgroup a\n|1|2||
# One code of several.||
respawn x\n|1|4||
respawn limit unlimited x\n|1|4||
console x\n|1|4||
start x\n|1|1||
normal x\n|1|1||
kill x\n|1|1||
reload x\n|1|1||
pre-start x\n|1|1||
pre-start\n|1|3||
stop\n|1|3||
normal\n|1|3||
exec # a\n|1|3||
start on a=1\n|1|12||
env =1\n|1|12||
export 1A\n|1|12||
exec 'a\\|1|5||
start on a ${[[:x:]]\n|1|14||
console owner x\n|1|2||
console owner\n|1|2||
start on(a)\n|1|1||
\nexec\0\n|1|15||
script\nend script#c\n|1|6||
# Tokens that aren't whole, in each place where tokens are read.||
env A='b\n|1|5||
task\nstart on a 'b\n|2|5||
pre-start 'x\n|1|5||
start 'on\n|1|5||
\n'x\n|2|5||
respawn\nenv A=b\\|2|7||
script 'a\n|1|5||
# Numbers beyond their limits.||
respawn limit 65536 5\n|1|10||
respawn limit 5\n|1|3||
respawn limit 5 2147483648\n|1|10||
normal exit 256\n|1|10||
normal exit\n|1|3||
kill timeout 99999999999999999999999\n|1|10||
kill signal 32\n|1|11||
";

#[test]
fn each_code_is_given(rt: HostRuntime) -> Result<(), Fail> {
    assert!(rt; is_read(rt.alloc(), b"task\n\xff\n", "1", "15")?);
    check(rt.alloc(), FAULTS)
}
