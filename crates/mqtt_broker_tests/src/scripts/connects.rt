//! Clients that connect: names, refusals, takeovers, resumptions (MQTT 5.0, 3.1, 3.2, 4.1).

/// Scripts of clients that connect.
pub fn clients() -> &'static str {
    "\
-- a client without a name is given one
link -> 1
on 1 100d 00044d515454 05 02 003c 00 0000 -> 1:20170000141200066175746f2d3121001422000a2700010000

-- a client comes again under the name that it was given
link -> 1
on 1 1012 00044d515454 05 00 0000 05 11ffffffff 0000 -> 1:20170000141200066175746f2d3121001422000a2700010000
lost 1 -> closed=1
link -> 2
connect 2 auto-1 -> 2:resumed
link -> 3
on 3 1012 00044d515454 05 00 0000 05 11ffffffff 0000 -> 3:20170000141200066175746f2d3221001422000a2700010000

-- another version is refused
link -> 1
on 1 100d 00044d515454 04 02 003c 00 0000 -> 1:2003008400 closed=1
on 1 c000

-- a CONNECT is refused by the first case that holds
link -> 1
on 1 1012 00044d515454 05 02 0000 04 15000161 000178 -> 1:2003008c00 closed=1
link -> 2
on 2 1013 00044d515454 05 02 0000 05 270000003f 000178 -> 2:2003009500 closed=2
link -> 3
on 3 1013 00044d515454 05 02 0000 05 2700000004 000178 -> closed=3
link -> 4
on 4 1013 00044d515454 05 02 0000 05 2700000005 000178 -> 4:2003009500 closed=4
link -> 5
on 5 1017 00044d515454 05 02 0000 09 15000161270000003f 000178 -> 5:2003008c00 closed=5
link -> 6
on 6 104e 00044d515454 05 02 0000 00 0041 \
6161616161616161616161616161616161616161616161616161616161616161\
6161616161616161616161616161616161616161616161616161616161616161\
61 -> 6:2003008500 closed=6
link -> 7
on 7 104d 00044d515454 05 02 0000 00 0040 \
6161616161616161616161616161616161616161616161616161616161616161\
6161616161616161616161616161616161616161616161616161616161616161 -> 7:connected
link -> 8
connect 8 auto-9 -> 8:2003008500 closed=8
link -> 9
on 9 1016 00044d515454 05 06 0000 00 000178 00 0003612f2b 0000 -> 9:2003009000 closed=9
link -> 10
on 10 1021 00044d515454 05 06 0000 09 15000161270000003f 0003787878 00 0003612f2b 0000 -> 10:2003008c00 closed=10

-- a new session has to find room, unless it takes the place of one that ends
limits refuse 1000 2 1000
link -> 1
connect 1 a -> 1:connected
link -> 2
connect 2 b -> 2:connected
link -> 3
connect 3 c -> 3:2003009700 closed=3
link -> 4
on 4 1013 00044d515454 05 02 0000 05 11ffffffff 000162 -> 2:e0018e 4:connected closed=2
link -> 5
connect 5 a -> 1:e0018e 5:resumed closed=1

-- a new line takes a client over from the old one
link -> 1
connect 1 c -> 1:connected
link -> 2
connect 2 c -> 1:e0018e 2:resumed closed=1
on 1 c000
pump 1
lost 1
on 2 c000 -> 2:d000

-- a second CONNECT closes the line
link -> 1
connect 1 c -> 1:connected
connect 1 c -> 1:e00182 closed=1

-- a Clean Start begins a session anew
link -> 1
connect 1 c -> 1:connected
on 1 8209 0001 00 0003612f62 02 -> 1:900400010002
lost 1 -> closed=1
link -> 2
on 2 1013 00044d515454 05 02 0000 05 11ffffffff 000163 -> 2:connected
on 2 3209 0003612f62 0001 00 21 -> accepted=1 2:4003000110

-- without a Clean Start a session is resumed with its subscriptions
link -> 1
connect 1 c -> 1:connected
on 1 8209 0001 00 0003612f62 02 -> 1:900400010002
lost 1 -> closed=1
link -> 2
connect 2 c -> 2:resumed
on 2 3209 0003612f62 0001 00 21 -> accepted=1 entered=1>c 2:40020001

-- a publisher comes on a new line, and its old line is read first
link -> 1
connect 1 p1 -> 1:connected
on 1 340a 0003612f62 0007 00 6869 -> accepted=1 1:5003000710
on 1 62020007 -> released=7 1:70020007
link -> 2
connect 2 p1 -> 1:e0018e 2:resumed closed=1
on 2 62020007 -> 2:7003000792

-- a publisher comes on a new line, and its CONNECT is read first
link -> 1
connect 1 p1 -> 1:connected
on 1 340a 0003612f62 0007 00 6869 -> accepted=1 1:5003000710
link -> 2
connect 2 p1 -> 1:e0018e 2:resumed closed=1
on 1 62020007
on 2 62020007 -> released=7 2:70020007

-- packets that only a server sends, and AUTH, close the line
times 5 link -> 5
connect 1 a -> 1:connected
on 1 f000 -> 1:e00182 closed=1
connect 2 b -> 2:connected
on 2 2003 000000 -> 2:e00182 closed=2
connect 3 c -> 3:connected
on 3 9004 0001 00 02 -> 3:e00182 closed=3
connect 4 d -> 4:connected
on 4 b004 0001 00 00 -> 4:e00182 closed=4
connect 5 e -> 5:connected
on 5 d000 -> 5:e00182 closed=5

-- first bytes that are no CONNECT close the line
times 6 link -> 6
on 1 e000 -> closed=1
on 2 c0 8000 -> closed=2
on 3 36 -> closed=3
on 4 1005 00044d5154 -> 4:2003008100 closed=4
on 5 10fdff03 -> 5:2003009500 closed=5
on 6 1100 -> 6:2003008100 closed=6
"
}
