//! Which message a receive takes, how much of it is returned, and who may send and receive, as
//! POSIX.1-2017 defines it in msgsnd, msgrcv and the general description of interprocess
//! communication.
use super::language::assert_runs;

/// Scripts with their output. In each script the queue belongs to user and group 1000 and has mode
/// 0600.
const RUNS: [(&[u8], &[u8]); 14] = [
    // by an exact type, by a bound, and the first that is left
    (
        b"preset
1 snd 0 5 - =a
1 snd 0 2 - =b
1 snd 0 5 - =c
1 snd 0 2 - =d
2 rcv 0 9 5 -
2 rcv 0 9 -4 -
2 rcv 0 9 0 -
",
        b"1 snd = 0
1 snd = 0
1 snd = 0
1 snd = 0
2 rcv = 1 type 5 =a
2 rcv = 1 type 2 =b
2 rcv = 1 type 5 =c
",
    ),
    // by every type but one; with type 0 and with a bound the flag has no effect
    (
        b"preset
1 snd 0 5 - =a
1 snd 0 2 - =b
1 snd 0 5 - =c
2 rcv 0 9 5 NOWAIT+EXCEPT
2 rcv 0 9 5 NOWAIT+EXCEPT
2 rcv 0 9 0 NOWAIT+EXCEPT
2 rcv 0 9 -5 NOWAIT+EXCEPT
",
        b"1 snd = 0
1 snd = 0
1 snd = 0
2 rcv = 1 type 2 =b
2 rcv ! ENOMSG
2 rcv = 1 type 5 =a
2 rcv = 1 type 5 =c
",
    ),
    // the lowest type argument is a bound of 2^63
    (
        b"preset
1 snd 0 9223372036854775807 - =max
1 snd 0 7 - =seven
2 rcv 0 9 -9223372036854775808 -
2 rcv 0 9 -9223372036854775808 -
",
        b"1 snd = 0
1 snd = 0
2 rcv = 5 type 7 =seven
2 rcv = 3 type 9223372036854775807 =max
",
    ),
    // the second highest bound includes the highest type, as the highest bound does
    (
        b"preset
1 snd 0 9223372036854775807 - =max
2 rcv 0 9 -9223372036854775806 NOWAIT
2 rcv 0 9 -9223372036854775807 NOWAIT
",
        b"1 snd = 0
2 rcv ! ENOMSG
2 rcv = 3 type 9223372036854775807 =max
",
    ),
    // a bound below the only type names nothing, and the message stays
    (
        b"preset
1 snd 0 3 - =p
2 rcv 0 9 -2 NOWAIT
2 rcv 0 9 -3 NOWAIT
",
        b"1 snd = 0
2 rcv ! ENOMSG
2 rcv = 1 type 3 =p
",
    ),
    // an exact type that no message has names nothing either
    (
        b"preset
1 snd 0 3 - =p
2 rcv 0 9 -2 NOWAIT
2 rcv 0 9 4 NOWAIT
2 rcv 0 9 -3 NOWAIT
",
        b"1 snd = 0
2 rcv ! ENOMSG
2 rcv ! ENOMSG
2 rcv = 1 type 3 =p
",
    ),
    // among messages of the lowest type the one sent first, as long as there is one
    (
        b"preset
1 snd 0 4 - =a
1 snd 0 1 - =b
1 snd 0 3 - =c
1 snd 0 1 - =d
2 rcv 0 9 -9 -
2 rcv 0 9 -9 -
2 rcv 0 9 -9 -
2 rcv 0 9 -9 -
",
        b"1 snd = 0
1 snd = 0
1 snd = 0
1 snd = 0
2 rcv = 1 type 1 =b
2 rcv = 1 type 1 =d
2 rcv = 1 type 3 =c
2 rcv = 1 type 4 =a
",
    ),
    // a body that is too long stays, or is cut and its rest lost
    (
        b"preset
1 snd 0 1 NOWAIT =0123456789
2 rcv 0 4 0 NOWAIT
2 rcv 0 4 0 NOWAIT+NOERROR
2 rcv 0 4 0 NOWAIT
",
        b"1 snd = 0
2 rcv ! E2BIG
2 rcv = 4 type 1 =0123
2 rcv ! ENOMSG
",
    ),
    // only the size of the message that is named matters
    (
        b"preset
1 snd 0 1 - =long
1 snd 0 2 - =s
2 rcv 0 1 1 -
2 rcv 0 1 2 -
2 rcv 0 0 -1 NOERROR
",
        b"1 snd = 0
1 snd = 0
2 rcv ! E2BIG
2 rcv = 1 type 2 =s
2 rcv = 0 type 1 =
",
    ),
    // a call's own arguments are checked first, then the permission
    (
        b"preset
as 3 5 5 7
3 snd 0 1 NOWAIT *8193
3 snd 0 0 NOWAIT =x
3 snd 0 1 NOWAIT *8192
1 snd 0 1 NOWAIT *8192
",
        b"3 snd ! EINVAL
3 snd ! EINVAL
3 snd ! EACCES
1 snd = 0
",
    ),
    // a call's own arguments are checked first, then the permission, then the room
    (
        b"preset
as 3 5 5 7
3 snd 0 1 NOWAIT *8193
3 snd 0 0 NOWAIT =x
3 snd 0 1 NOWAIT *8192
1 snd 0 1 NOWAIT *8192
1 snd 0 1 NOWAIT *8192
1 snd 0 1 NOWAIT =x
3 snd 0 1 NOWAIT =x
3 snd 1 1 NOWAIT =x
",
        b"3 snd ! EINVAL
3 snd ! EINVAL
3 snd ! EACCES
1 snd = 0
1 snd = 0
1 snd ! EAGAIN
3 snd ! EACCES
3 snd ! EINVAL
",
    ),
    // a receive in the same way: the identifier, the permission, the match and the size. A member
    // of the queue's group has no permission if the group has no bits
    (
        b"preset
as 3 2000 1000 7
3 rcv 0 9 0 NOWAIT
3 rcv 1 9 0 NOWAIT
3 rcv 0 9 0 EXCEPT
1 snd 0 1 - =long
3 rcv 0 1 0 NOWAIT
as 3 1000 2000 7
3 rcv 0 1 0 NOWAIT
3 rcv 0 4 0 NOWAIT
",
        b"3 rcv ! EACCES
3 rcv ! EINVAL
3 rcv ! EACCES
1 snd = 0
3 rcv ! EACCES
3 rcv ! E2BIG
3 rcv = 4 type 1 =long
",
    ),
    // user 0 has write permission
    (
        b"preset
as 3 0 0 1
3 snd 0 1 NOWAIT =z
",
        b"3 snd = 0
",
    ),
    // user 0 has all permissions
    (
        b"preset
as 3 0 0 1
3 snd 0 1 NOWAIT =z
3 rcv 0 9 0 NOWAIT
",
        b"3 snd = 0
3 rcv = 1 type 1 =z
",
    ),
];

#[test]
fn selects_and_permits(rt: HostRuntime) {
    for (script, answers) in RUNS.iter() {
        assert_runs(&rt, script, Ok(()), answers);
    }
}
