//! Keys, control, waiting and blocks, as POSIX.1-2017 defines them in msgget and msgctl, and by the
//! steps of this project's profile.
use super::language::{assert_runs, run};
use crate::parts::assert_is;
use std::io::Write;
use std::test::Fail;

/// Scripts with their output.
const RUNS: [(&[u8], &[u8]); 14] = [
    // two receivers that wait, and one message of their type
    (
        b"preset
2 rcv 0 9 3 -
3 rcv 0 9 3 -
1 snd 0 3 - =x
all
",
        b"2 rcv waits
3 rcv waits
1 snd = 0
2 rcv = 1 type 3 =x
3 rcv waits
",
    ),
    // a removal while a send and a receive wait, and the key created again
    (
        b"1 get 7 CREAT+0600
1 set 0 1000 1000 600 1
2 snd 0 1 - =ab
3 rcv 0 9 0 -
1 rm 0
all
2 snd 0 1 - =ab
1 get 7 CREAT+0600
",
        b"1 get = 0
1 set = 0
2 snd waits
3 rcv waits
1 rm = 0
2 snd ! EIDRM
3 rcv ! EIDRM
2 snd ! EINVAL
1 get = 256
",
    ),
    // a limit below the queued bytes, and the users who may raise it
    (
        b"1 get 1 CREAT+0600
1 snd 0 1 - =abcd
1 set 0 1000 1000 600 2
2 snd 0 1 - =
1 set 0 1000 1000 600 9
as 3 0 0 1
3 set 0 1000 1000 600 70000
3 set 0 1000 1000 600 65536
all
2 rcv 0 9 0 -
",
        b"1 get = 0
1 snd = 0
1 set = 0
2 snd waits
1 set ! EPERM
3 set ! EINVAL
3 set = 0
2 snd = 0
2 rcv = 4 type 1 =abcd
",
    ),
    // only the class of a caller decides, and permission is checked again after a wait
    (
        b"1 get 1 CREAT+0077
1 snd 0 1 NOWAIT =x
as 2 2000 1000 5
2 snd 0 1 NOWAIT =x
2 rcv 0 9 3 -
1 set 0 1000 1000 007 16384
all
",
        b"1 get = 0
1 snd ! EACCES
2 snd = 0
2 rcv waits
1 set = 0
2 rcv ! EACCES
",
    ),
    // the attributes that a stat returns
    (
        b"now 50
1 get 3 CREAT+0640
now 60
1 snd 0 4 - =abc
now 70
as 2 2000 1000 205
2 rcv 0 9 0 -
2 snd 0 1 - =z
2 stat 0
",
        b"1 get = 0
1 snd = 0
2 rcv = 3 type 4 =abc
2 snd ! EACCES
2 stat = key 3 uid 1000 gid 1000 cuid 1000 cgid 1000 mode 640 bytes 0 num 0 qbytes 16384 lspid 101 lrpid 205 stime 60 rtime 70 ctime 50
",
    ),
    // a get of a key whose queue is being removed
    (
        b"1 get 4 CREAT+0600
+1 rm 0
step 1
2 get 4 CREAT+EXCL+0600
go 1
go 2
",
        b"1 get = 0
1 rm at remove
1 rm at forget
2 get waits
1 rm = 0
2 get = 256
",
    ),
    // the users who may set and remove, and the result of calls on a removed identifier
    (
        b"1 get 5 CREAT+0600
as 2 2000 2000 9
2 rm 0
2 set 0 1 1 600 70000
1 rm 0
1 rm 0
1 stat 0
",
        b"1 get = 0
2 rm ! EPERM
2 set ! EPERM
1 rm = 0
1 rm ! EINVAL
1 stat ! EINVAL
",
    ),
    // a get of a key whose queue is being created
    (
        b"+1 get 4 CREAT+0600
step 1
2 get 4 -
go 1
go 2
",
        b"1 get at begin
1 get at install
2 get waits
1 get = 0
2 get = 0
",
    ),
    // a removal while fifteen receives wait
    (
        b"1 get 5 CREAT+0600
2 rcv 0 9 0 -
3 rcv 0 9 0 -
4 rcv 0 9 0 -
5 rcv 0 9 0 -
6 rcv 0 9 0 -
7 rcv 0 9 0 -
8 rcv 0 9 0 -
9 rcv 0 9 0 -
10 rcv 0 9 0 -
11 rcv 0 9 0 -
12 rcv 0 9 0 -
13 rcv 0 9 0 -
14 rcv 0 9 0 -
15 rcv 0 9 0 -
16 rcv 0 9 0 -
1 rm 0
all
",
        b"1 get = 0
2 rcv waits
3 rcv waits
4 rcv waits
5 rcv waits
6 rcv waits
7 rcv waits
8 rcv waits
9 rcv waits
10 rcv waits
11 rcv waits
12 rcv waits
13 rcv waits
14 rcv waits
15 rcv waits
16 rcv waits
1 rm = 0
2 rcv ! EIDRM
3 rcv ! EIDRM
4 rcv ! EIDRM
5 rcv ! EIDRM
6 rcv ! EIDRM
7 rcv ! EIDRM
8 rcv ! EIDRM
9 rcv ! EIDRM
10 rcv ! EIDRM
11 rcv ! EIDRM
12 rcv ! EIDRM
13 rcv ! EIDRM
14 rcv ! EIDRM
15 rcv ! EIDRM
16 rcv ! EIDRM
",
    ),
    // a set while fifteen receives wait
    (
        b"1 get 5 CREAT+0600
2 rcv 0 9 0 -
3 rcv 0 9 0 -
4 rcv 0 9 0 -
5 rcv 0 9 0 -
6 rcv 0 9 0 -
7 rcv 0 9 0 -
8 rcv 0 9 0 -
9 rcv 0 9 0 -
10 rcv 0 9 0 -
11 rcv 0 9 0 -
12 rcv 0 9 0 -
13 rcv 0 9 0 -
14 rcv 0 9 0 -
15 rcv 0 9 0 -
16 rcv 0 9 0 -
1 set 0 1000 1000 200 16384
all
",
        b"1 get = 0
2 rcv waits
3 rcv waits
4 rcv waits
5 rcv waits
6 rcv waits
7 rcv waits
8 rcv waits
9 rcv waits
10 rcv waits
11 rcv waits
12 rcv waits
13 rcv waits
14 rcv waits
15 rcv waits
16 rcv waits
1 set = 0
2 rcv ! EACCES
3 rcv ! EACCES
4 rcv ! EACCES
5 rcv ! EACCES
6 rcv ! EACCES
7 rcv ! EACCES
8 rcv ! EACCES
9 rcv ! EACCES
10 rcv ! EACCES
11 rcv ! EACCES
12 rcv ! EACCES
13 rcv ! EACCES
14 rcv ! EACCES
15 rcv ! EACCES
16 rcv ! EACCES
",
    ),
    // a set while fifteen sends wait
    (
        b"1 get 5 CREAT+0600
1 set 0 1000 1000 600 0
2 snd 0 1 - =a
3 snd 0 1 - =a
4 snd 0 1 - =a
5 snd 0 1 - =a
6 snd 0 1 - =a
7 snd 0 1 - =a
8 snd 0 1 - =a
9 snd 0 1 - =a
10 snd 0 1 - =a
11 snd 0 1 - =a
12 snd 0 1 - =a
13 snd 0 1 - =a
14 snd 0 1 - =a
15 snd 0 1 - =a
16 snd 0 1 - =a
as 1 0 0 101
1 set 0 1000 1000 600 15
all
1 stat 0
",
        b"1 get = 0
1 set = 0
2 snd waits
3 snd waits
4 snd waits
5 snd waits
6 snd waits
7 snd waits
8 snd waits
9 snd waits
10 snd waits
11 snd waits
12 snd waits
13 snd waits
14 snd waits
15 snd waits
16 snd waits
1 set = 0
2 snd = 0
3 snd = 0
4 snd = 0
5 snd = 0
6 snd = 0
7 snd = 0
8 snd = 0
9 snd = 0
10 snd = 0
11 snd = 0
12 snd = 0
13 snd = 0
14 snd = 0
15 snd = 0
16 snd = 0
1 stat = key 5 uid 1000 gid 1000 cuid 1000 cgid 1000 mode 600 bytes 15 num 15 qbytes 15 lspid 116 lrpid 0 stime 0 rtime 0 ctime 0
",
    ),
    // a pool whose blocks are all taken by one body, and an empty body
    (
        b"pool 128
preset
1 snd 0 1 NOWAIT *8192
1 snd 0 1 NOWAIT *1
1 snd 0 2 NOWAIT =
2 rcv 0 0 2 NOWAIT
",
        b"1 snd = 0
1 snd ! EAGAIN
1 snd = 0
2 rcv = 0 type 2 =
",
    ),
    // blocks that are given back by a receive and by a removal, and the calls that wait for them
    (
        b"pool 128
1 get 1 CREAT+0600
1 get 2 CREAT+0600
1 snd 0 1 - *8192
2 snd 1 1 - =x
3 rcv 0 0 0 NOERROR
all
1 snd 0 1 NOWAIT *8128
2 snd 1 1 - =y
1 rm 1
all
",
        b"1 get = 0
1 get = 1
1 snd = 0
2 snd waits
3 rcv = 0 type 1 =
2 snd = 0
1 snd = 0
2 snd waits
1 rm = 0
2 snd ! EIDRM
",
    ),
    // a send that finds no room when it places its message
    (
        b"preset
1 set 0 1000 1000 600 1
+2 snd 0 1 - =a
step 2
step 2
1 snd 0 1 - =b
step 2
step 2
3 rcv 0 9 0 -
go 2
",
        b"1 set = 0
2 snd at look
2 snd at reserve
2 snd at place
1 snd = 0
2 snd at giveback
2 snd waits
3 rcv = 1 type 1 =b
2 snd = 0
",
    ),
];

#[test]
fn makes_changes_and_removes_queues(rt: HostRuntime) {
    for (script, answers) in RUNS.iter() {
        assert_runs(&rt, script, Ok(()), answers);
    }
}

#[test]
fn fills_all_slots(rt: HostRuntime) -> Result<(), Fail> {
    let mut script = Vec::new(rt.alloc());
    let mut answers = Vec::new(rt.alloc());
    for id in 0..256_u32 {
        script.extend_from_slice(b"1 get 0 -\n")?;
        assert!(rt; writeln!(answers, "1 get = {id}").is_ok());
    }
    script.extend_from_slice(b"1 get 0 -\n1 rm 5\n1 get 9 CREAT\n1 get 9 -\n")?;
    answers.extend_from_slice(b"1 get ! ENOSPC\n1 rm = 0\n1 get = 261\n1 get = 261\n")?;
    let ending = run(rt.alloc(), script.as_slice());
    assert_is(&rt, ending.end, Ok(()));
    assert_is(&rt, ending.written.as_slice(), answers.as_slice());
    Ok(())
}
