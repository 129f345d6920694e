//! What publishers ask (MQTT 5.0, 3.3, 3.6, 4.3).

/// Scripts of publishers.
pub fn publishing() -> &'static str {
    "\
-- a publication at QoS 2 is accepted once, though nobody is there
link -> 1
connect 1 p1 -> 1:connected
on 1 340a 0003612f62 000a 00 6869 -> accepted=1 1:5003000a10
on 1 340a 0003612f62 000a 00 6869 -> 1:5002000a
on 1 3c0a 0003612f62 000a 00 6869 -> 1:5002000a
on 1 6202000a -> released=10 1:7002000a
on 1 6202000a -> 1:7003000a92
on 1 3c0a 0003612f62 000a 00 6869 -> accepted=2 1:5003000a10

-- a publication at QoS 2 enters a queue once
link -> 1
connect 1 r1 -> 1:connected
on 1 8209 0001 00 0003612f62 02 -> 1:900400010002
link -> 2
connect 2 p1 -> 2:connected
on 2 340a 0003612f62 000a 00 6869 -> accepted=1 entered=1>r1 2:5002000a
on 2 340a 0003612f62 000a 00 6869 -> 2:5002000a
on 2 3c0a 0003612f62 000a 00 6869 -> 2:5002000a
on 2 6202000a -> released=10 2:7002000a
on 2 6202000a -> 2:7003000a92

-- twenty identifiers may be open, and stay so over a restart
link -> 1
connect 1 p1 -> 1:connected
times 20 on 1 340a 0003612f62 % 00 6869 -> accepted=20 1:5003001410
on 1 340a 0003612f62 0015 00 6869 -> 1:e00193 closed=1
restart
link -> 1
connect 1 p1 -> 1:resumed
times 20 on 1 3c0a 0003612f62 % 00 6869 -> 1:50020014
on 1 3209 0003612f62 0015 00 21 -> 1:e00193 closed=1

-- an open identifier is not for a publication at QoS 1, nor for SUBSCRIBE and UNSUBSCRIBE
link -> 1
connect 1 p1 -> 1:connected
on 1 340a 0003612f62 000a 00 6869 -> accepted=1 1:5003000a10
on 1 3209 0003612f62 000a 00 21 -> 1:4003000a91
on 1 8209 000a 00 0003612f62 02 -> 1:9004000a0091
on 1 a208 000a 00 0003612f62 -> 1:b004000a0091
on 1 3209 0003612f62 000b 00 21 -> accepted=2 1:4003000b10

-- an alias stands for its topic
link -> 1
connect 1 r1 -> 1:connected
on 1 8209 0001 00 0003612f62 00 -> 1:900400010000
link -> 2
connect 2 p1 -> 2:connected
on 2 300a 0003612f62 03 230001 21 -> accepted=1 1:30070003612f620021
on 2 3007 0000 03 230001 22 -> accepted=2 1:30070003612f620022
on 2 300a 0003612f62 03 23000b 21 -> 2:e00194 closed=2

-- an alias that is none, or stands for nothing, closes the line
times 3 link -> 3
connect 1 a -> 1:connected
on 1 300a 0003612f62 03 230000 21 -> 1:e00194 closed=1
connect 2 b -> 2:connected
on 2 3007 0000 03 23000a 21 -> 2:e00182 closed=2
connect 3 a -> 3:resumed
on 3 300a 0003612f62 03 23000a 21 -> accepted=1
lost 3 -> closed=3
link -> 4
connect 4 a -> 4:resumed
on 4 3007 0000 03 23000a 21 -> 4:e00182 closed=4

-- a PUBLISH with a Subscription Identifier, or to no topic name, closes the line
times 2 link -> 2
connect 1 a -> 1:connected
on 1 3009 0003612f62 02 0b01 21 -> 1:e00182 closed=1
connect 2 b -> 2:connected
on 2 3006 0003612f2b 00 -> 2:e00190 closed=2

-- a publication for which a queue has no room is not accepted
link -> 1
connect 1 r1 -> 1:connected
on 1 8209 0001 00 0003612f62 02 -> 1:900400010002
link -> 2
connect 2 p1 -> 2:connected
times 1000 on 2 340a 0003612f62 000a 00 6869 6202000a \
-> accepted=1000 entered=1000>r1 2:5002000a released=10 2:7002000a
on 2 340a 0003612f62 000a 00 6869 -> 2:5003000a97
on 2 6202000a -> 2:7003000a92
on 2 3209 0003612f62 0001 00 21 -> 2:4003000197
on 2 3007 0003612f62 00 21 -> accepted=1001 1:30070003612f620021
times 63 pump 1 \
-> 1:340a0003612f6203e1006869 1:340a0003612f6203e2006869 1:340a0003612f6203e3006869 1:340a0003612f6203e4006869 \
1:340a0003612f6203e5006869 1:340a0003612f6203e6006869 1:340a0003612f6203e7006869 1:340a0003612f6203e8006869
on 1 50020384 -> 1:62020384

-- the oldest copy that waits gives way in a queue that drops
limits drop 2 1000 1000
link -> 1
connect 1 r1 -> 1:connected
on 1 8209 0001 00 0003612f62 02 -> 1:900400010002
link -> 2
connect 2 p1 -> 2:connected
times 2 on 2 340a 0003612f62 % 00 6869 -> accepted=2 entered=2>r1 2:50020002
on 2 340a 0003612f62 0003 00 6869 -> accepted=3 ended=1>r1:Dropped entered=3>r1 2:50020003
pump 1 -> 1:340a0003612f620001006869 1:340a0003612f620002006869
on 2 340a 0003612f62 0004 00 6869 -> 2:5003000497

-- a queue of two that refuses takes no third
limits refuse 2 1000 1000
link -> 1
connect 1 r1 -> 1:connected
on 1 8209 0001 00 0003612f62 02 -> 1:900400010002
link -> 2
connect 2 p1 -> 2:connected
times 2 on 2 340a 0003612f62 % 00 6869 -> accepted=2 entered=2>r1 2:50020002
on 2 340a 0003612f62 0003 00 6869 -> 2:5003000397

-- a retained message goes to who subscribes later, until an empty one comes
link -> 1
connect 1 p1 -> 1:connected
on 1 3107 0003612f62 00 21 -> accepted=1
link -> 2
connect 2 r1 -> 2:connected
on 2 8209 0001 00 0003612f62 02 -> 2:900400010002 2:31070003612f620021
on 2 a208 0002 00 0003612f62 -> 2:b00400020000
on 2 a208 0002 00 0003612f62 -> 2:b00400020011
on 1 350a 0003612f62 000a 00 6869 -> accepted=2 1:5003000a10
on 2 8209 0003 00 0003612f62 02 -> entered=2>r1 2:900400030002
pump 2 -> 2:350a0003612f620001006869
on 2 8209 0004 00 0003612f62 12 -> 2:900400040002
on 2 8209 0005 00 0003612f62 22 -> 2:900400050002
on 1 3106 0003612f62 00 -> accepted=3 2:30060003612f6200
on 2 8209 0006 00 0003612f62 02 -> 2:900400060002

-- a retained message expires
link -> 1
connect 1 p1 -> 1:connected
on 1 310c 0003612f62 05 0200000005 21 -> accepted=1
at 4000
link -> 2
connect 2 r1 -> 2:connected
on 2 8209 0001 00 0003612f62 00 -> 2:900400010000 2:310c0003612f6205020000000121
at 5000
on 2 8209 0002 00 0003612f62 00 -> 2:900400020000
tick -> again
tick

-- a thousand topics are retained, and no further one
link -> 1
connect 1 p1 -> 1:connected
times 1000 on 1 3108 0004@ 00 21 -> accepted=1000
on 1 330a 000478787878 0001 00 21 -> 1:4003000197
on 1 330a 000430303031 0001 00 21 -> accepted=1001 1:4003000110
on 1 3107 000430303032 00 -> accepted=1002
on 1 330a 000478787878 0001 00 21 -> accepted=1003 1:4003000110
"
}
