//! Lines behind `client c1 a`, by their fault.
use super::behind_client_is_told;
use std::alloc::Global;
use std::process::Abort;

/// Words that may not stand there.
const WORDS: &str = "c2 ls
C1 ls
c1 LS
c1 lss
c1 l
c1 create d 1 x
c1 create d 1 Object 4096
c1 create d 1 count 1 unit 512
c1 create d 1 unit 512 object 4096
c1 create d 1 object 4096 object 4096
c1 create d 1 4096
c1 clone p@s c journa
c1 snap d@s
c1 snap Create d@s
c1 snap list d
c1 mirror d
c1 mirror promote d forced
c1 mirror promote d journal
&c1 ls
& c2 ls
& & c1 ls
& client c2 a
& @settle 1
@
@Settle 1
@settle1
@poll c2 0
@until c1 0 dir
@until c1 0 Watch
@expire c1 c 1
@trim c 1 1
@stop c2
@restart client
client c2 c
client c2 ab
client c2 A
clientc2 a
 # x
c1\tls
c1 ls\t
c1 ls\r
c1: ls
c1 -h
c1 @settle 1
c1 c1 ls
c1 & ls";

/// Places without a token.
const MISSING: &str = "c1
c1 create
c1 create d
c1 create d 1 object
c1 create d 1 unit 512 count
c1 clone
c1 clone p@s
c1 write d
c1 write d 0
c1 fill d 0
c1 fill d 0 1
c1 discard d 0
c1 read d@s
c1 read d@s 0
c1 resize d
c1 rename d
c1 rm
c1 children
c1 tell d
c1 snap
c1 snap create
c1 snap ls
c1 mirror
c1 mirror promote
&
& c1
@poll
@poll c1
@until c1 0
@settle
@deliver
@lose
@expire c1 a
@stop
@late c1
@trim a 1
client
client c2";

/// Tokens behind the last part.
const EXTRA: &str = "c1 ls x
c1 ls ls
c1 create d 1 journal journal
c1 create d 1 journal object 4096
c1 clone p@s c journal x
c1 write d 0 aa bb
c1 fill d 0 1 aa 1
c1 discard d 0 1 1
c1 read d 0 1 1
c1 resize d 1 1
c1 rename d e f
c1 info d d
c1 children d@s x
c1 tell d aa aa
c1 snap create d@s x
c1 snap ls d x
c1 mirror status d x
c1 mirror promote d force x
c1 mirror promote d force force
@poll c1 0 1 1
@until c1 0 watch x
@settle 1 1
@stop c1 c1
@late c1 0 0
@trim a 1 1 1
@expire c1 a 1 1
client c2 a b";

/// Numbers and bytes outside their rule.
const NUMBERS: &str = "c1 resize d 00
c1 resize d 01
c1 resize d +1
c1 resize d -1
c1 resize d 1.0
c1 resize d 0x1
c1 resize d 1e3
c1 resize d a
c1 resize d 9223372036854775808
c1 resize d 18446744073709551616
c1 resize d 99999999999999999999999
c1 create d x
c1 create d 1 object x
c1 create d 1 object 01
c1 create d 1 count 4294967296
c1 read d 0 65537
c1 read d 00 1
c1 fill d 0 1048577 aa
c1 fill d 0 1 a
c1 fill d 0 1 aaa
c1 fill d 0 1 aaaa
c1 fill d 0 1 AA
c1 fill d 0 1 0g
c1 write d 0 a
c1 write d 0 AA
c1 write d 0 aA
c1 write d 0 0x
c1 write d 0 aab
c1 tell d g0
@poll c1 65
@poll c1 0 0
@poll c1 0 1000001
@poll c1 0 01
@poll c1 0 x
@poll c1 -1
@settle 01
@settle x
@expire c1 a 4294967296
@trim a 4294967296 1
@trim a 1 9223372036854775808
@late c1 65
@deliver 1a";

/// Names outside their rule.
const NAMES: &str = "c1 info .d
c1 info -d
c1 info d/e
c1 info d@s
c1 info @
c1 info @s
c1 info aaaaaaaaaaaaaaaaaaaaaaaaaaaaaaaaaaaaaaaaaaaaaaaaaaaaaaaaaaaaaaaaa
c1 rename .d e
c1 rename d .e
c1 snap create d
c1 snap create d@
c1 snap create @s
c1 snap create d@s@t
c1 snap create d@.s
c1 snap create .d@s
c1 read d@ 0 1
c1 read @s 0 1
c1 clone p c
c1 clone p@s c@t
c1 children d
c1 snap ls d@s
client client a
client C2 a
client 2c a
client c_2 a
client c1 a
client ccccccccccccccccccccccccccccccccc a
client .c a";

fn each_is_told(rt: &impl Abort, alloc: Global, lines: &str, want: &str) {
    for line in lines.split('\n') {
        assert!(rt; behind_client_is_told(alloc, line, want), "{line}");
    }
}

#[test]
fn words_that_may_not_stand_there(rt: HostRuntime) {
    each_is_told(&rt, rt.alloc(), WORDS, "line 2: unknown word");
}

#[test]
fn places_without_a_token(rt: HostRuntime) {
    each_is_told(&rt, rt.alloc(), MISSING, "line 2: missing part");
}

#[test]
fn tokens_behind_the_last_part(rt: HostRuntime) {
    each_is_told(&rt, rt.alloc(), EXTRA, "line 2: extra part");
}

#[test]
fn numbers_outside_their_rule(rt: HostRuntime) {
    each_is_told(&rt, rt.alloc(), NUMBERS, "line 2: bad number");
}

#[test]
fn names_outside_their_rule(rt: HostRuntime) {
    each_is_told(&rt, rt.alloc(), NAMES, "line 2: bad name");
}
