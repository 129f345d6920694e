//! What is refused changes nothing else (MQTT 5.0, 3, 4.13).

/// Scripts that are played twice: with the lines behind `+`, and with those behind `-` in their place. Both leave the same
/// rows.
pub fn refusing() -> &'static str {
    "\
-- a CONNECT that is cut short
link -> 1
+ on 1 10 05 00 04 4d 51 54 -> 1:2003008100 closed=1

-- a CONNECT that is too large
link -> 1
+ on 1 10 fd ff 03 -> 1:2003009500 closed=1

-- a first packet that is no CONNECT
link -> 1
+ on 1 e0 00 -> closed=1

-- a Remaining Length that is too long
link -> 1
connect 1 c -> 1:connected
+ on 1 c0 80 00 -> 1:e00181 closed=1
- lost 1 -> closed=1

-- a CONNECT of another version on a connection
link -> 1
connect 1 c -> 1:connected
+ on 1 100d 00044d515454 04 02 003c 00 0000 -> 1:e00182 closed=1
- lost 1 -> closed=1

-- a 65th line
times 64 link -> 64
connect 1 c -> 1:connected
+ link -> none

-- a 1,001st session, while one that stands is resumed
times 1000 link; connect # c#; lost # -> closed=1000
+ link -> 1001
+ connect 1001 d -> 1001:2003009700 closed=1001
- link -> 1001
- lost 1001 -> closed=1001
link -> 1002
connect 1002 c7 -> 1002:resumed

-- a CONNECT in whose step a session ends with its Will, while more sessions stand than may: the group's turn is given back
times 3 link -> 3
connect 1 b -> 1:connected
on 1 8210 0001 00 000a2473686172652f672f77 02 -> 1:900400010002
connect 2 a -> 2:connected
on 2 8210 0001 00 000a2473686172652f672f77 02 -> 2:900400010002
connect 3 p1 -> 3:connected
limits refuse 1000 1 1000
times 4 link -> 4
on 1 1015 00044d515454 05 0c 0000 00 000162 00 000177 000121 -> 1:resumed
connect 3 p1 -> 3:resumed
on 3 3207 000177 0001 00 21 -> accepted=1 entered=1>b 3:40020001
+ on 4 1015 00044d515454 05 0c 0000 00 000162 00 000177 000121 -> 4:2003009700 closed=4
on 3 3207 000177 0002 00 21 -> accepted=2 entered=2>a 3:40020002
on 1 c000 -> 1:d000

-- a new client under a name like those that are given
link -> 1
+ connect 1 auto-9 -> 1:2003008500 closed=1

-- a 101st filter
link -> 1
connect 1 c -> 1:connected
times 100 on 1 820a % 00 0004@ 00 -> 1:900400640000
+ on 1 820a 0065 00 000478787878 00 -> 1:900400650097

-- a 1,001st retained topic
link -> 1
connect 1 c -> 1:connected
times 1000 on 1 3108 0004@ 00 21 -> accepted=1000
+ on 1 330a 000478787878 0001 00 21 -> 1:4003000197
"
}
