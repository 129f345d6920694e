//! Subscriptions, overlapping, shared, too many (MQTT 5.0, 3.8 to 3.11, 4.7, 4.8).

/// Scripts of subscriptions.
pub fn filters() -> &'static str {
    "\
-- overlapping subscriptions make one copy with all identifiers
link -> 1
connect 1 r1 -> 1:connected
on 1 820b 0001 020b01 0003612f23 01 -> 1:900400010001
on 1 820b 0002 020b02 0003612f62 02 -> 1:900400020002
link -> 2
connect 2 p1 -> 2:connected
on 2 340a 0003612f62 000a 00 6869 -> accepted=1 entered=1>r1 2:5002000a
pump 1 -> 1:340e0003612f620001040b010b026869

-- identifiers stand in the order subscribed
link -> 1
connect 1 r1 -> 1:connected
on 1 8209 0001 020b03 000123 02 -> 1:900400010002
on 1 820b 0002 020b02 0003612f2b 02 -> 1:900400020002
on 1 820b 0003 020b01 0003612f62 02 -> 1:900400030002
link -> 2
connect 2 p1 -> 2:connected
on 2 340a 0003612f62 000a 00 6869 -> accepted=1 entered=1>r1 2:5002000a
pump 1 -> 1:34100003612f620001060b030b020b016869

-- a copy stays with the member that was chosen
times 3 link -> 3
on 1 1014 00044d515454 05 00 0000 05 1100000005 00026d31 -> 1:connected
on 1 8212 0001 00 000c2473686172652f672f612f62 02 -> 1:900400010002
connect 2 m2 -> 2:connected
on 2 8212 0001 00 000c2473686172652f672f612f62 02 -> 2:900400010002
connect 3 p1 -> 3:connected
on 3 340a 0003612f62 000a 00 6869 -> accepted=1 entered=1>m1 3:5002000a
pump 1 -> 1:340a0003612f620001006869
lost 1 -> closed=1
at 4999
tick
at 5000
tick -> ended=1>m1:SessionEnded again
tick
pump 2
on 3 340a 0003612f62 000b 00 6869 -> accepted=2 entered=2>m2 3:5002000b

-- members of a group take turns
times 3 link -> 3
on 1 1014 00044d515454 05 00 0000 05 1100000005 00026d31 -> 1:connected
on 1 8212 0001 00 000c2473686172652f672f612f62 02 -> 1:900400010002
connect 2 m2 -> 2:connected
on 2 8212 0001 00 000c2473686172652f672f612f62 02 -> 2:900400010002
connect 3 p1 -> 3:connected
on 3 340a 0003612f62 000a 00 6869 -> accepted=1 entered=1>m1 3:5002000a
pump 1 -> 1:340a0003612f620001006869
on 3 340a 0003612f62 000b 00 6869 -> accepted=2 entered=2>m2 3:5002000b
on 3 340a 0003612f62 000c 00 6869 -> accepted=3 entered=3>m1 3:5002000c
lost 1 -> closed=1
on 3 340a 0003612f62 000d 00 6869 -> accepted=4 entered=4>m2 3:5002000d
on 3 340a 0003612f62 000e 00 6869 -> accepted=5 entered=5>m1 3:5002000e
at 5000
tick -> ended=1>m1:SessionEnded ended=3>m1:SessionEnded ended=5>m1:SessionEnded again
on 3 340a 0003612f62 000f 00 6869 -> accepted=6 entered=6>m2 3:5002000f

-- a group whose members are full refuses, one whose members are away at QoS 0 is passed over
limits refuse 1 1000 1000
times 3 link -> 3
connect 1 m1 -> 1:connected
on 1 8212 0001 00 000c2473686172652f672f612f62 02 -> 1:900400010002
connect 2 m2 -> 2:connected
on 2 8212 0001 00 000c2473686172652f682f612f62 00 -> 2:900400010000
connect 3 p1 -> 3:connected
on 3 340a 0003612f62 000a 00 6869 -> accepted=1 entered=1>m1 2:30080003612f62006869 3:5002000a
on 3 340a 0003612f62 000b 00 6869 -> 3:5003000b97
lost 2 -> closed=2
pump 1 -> 1:340a0003612f620001006869
on 1 50020001 -> 1:62020001
on 1 70020001 -> ended=1>m1:Taken
on 3 340a 0003612f62 000c 00 6869 -> accepted=2 entered=2>m1 3:5002000c

-- a client's own messages are barred by No Local
link -> 1
connect 1 c -> 1:connected
on 1 8209 0001 00 0003612f62 06 -> 1:900400010002
on 1 3209 0003612f62 0001 00 21 -> accepted=1 1:4003000110

-- RETAIN stays as it was published where that is asked for
link -> 1
connect 1 c -> 1:connected
on 1 8209 0001 00 0003612f62 08 -> 1:900400010000
link -> 2
connect 2 d -> 2:connected
on 2 8209 0001 00 0003612f62 00 -> 2:900400010000
on 2 3107 0003612f62 00 21 -> accepted=1 1:31070003612f620021 2:30070003612f620021

-- a filter that is none is refused by its code alone
link -> 1
connect 1 c -> 1:connected
on 1 820e 0001 00 00026123 00 0003612f62 01 -> 1:90050001008f01
on 1 a20c 0002 00 00026123 0003612f62 -> 1:b0050002008f00

-- a hundred subscriptions stand, and no further one
link -> 1
connect 1 c -> 1:connected
times 100 on 1 820a % 00 0004@ 00 -> 1:900400640000
on 1 820a 0065 00 000478787878 00 -> 1:900400650097
on 1 820a 0066 00 000430303031 02 -> 1:900400660002
on 1 a209 0067 00 000430303031 -> 1:b00400670000
on 1 820a 0068 00 000478787878 01 -> 1:900400680001

-- a client that is away gets no copy at QoS 0
link -> 1
connect 1 c -> 1:connected
on 1 8209 0001 00 0003612f62 00 -> 1:900400010000
lost 1 -> closed=1
link -> 2
connect 2 p1 -> 2:connected
on 2 3209 0003612f62 0001 00 21 -> accepted=1 2:40020001
link -> 3
connect 3 c -> 3:resumed
pump 3

-- No Local bars one's own retained messages
link -> 1
connect 1 c -> 1:connected
on 1 3107 0003612f62 00 21 -> accepted=1
on 1 8209 0001 00 0003612f62 04 -> 1:900400010000
on 1 8209 0002 00 0003612f62 00 -> 1:900400020000 1:31070003612f620021

-- a shared subscription gets no retained message
link -> 1
connect 1 c -> 1:connected
on 1 3107 0003612f62 00 21 -> accepted=1
on 1 8212 0001 00 000c2473686172652f672f612f62 00 -> 1:900400010000

-- a filter for whose retained messages a queue has no room is refused by itself
limits refuse 1 1000 1000
link -> 1
connect 1 p1 -> 1:connected
on 1 3307 000161 0001 00 21 -> accepted=1 1:4003000110
on 1 3307 000162 0001 00 21 -> accepted=2 1:4003000110
link -> 2
connect 2 r1 -> 2:connected
on 2 820b 0001 00 000123 01 000161 01 -> entered=1>r1 2:90050001009701
on 2 a206 0002 00 000123 -> 2:b00400020011
pump 2 -> 2:330700016100010021

-- a wildcard in front matches no topic that begins with a dollar
link -> 1
connect 1 c -> 1:connected
on 1 8207 0001 00 000123 00 -> 1:900400010000
on 1 320c 0006245359532f78 0001 00 21 -> accepted=1 1:4003000110
on 1 820c 0002 00 0006245359532f23 00 -> 1:900400020000
on 1 320c 0006245359532f78 0002 00 21 -> accepted=2 1:300a0006245359532f780021 1:40020002

-- a copy that entered stays after UNSUBSCRIBE
link -> 1
connect 1 r1 -> 1:connected
on 1 8209 0001 00 0003612f62 02 -> 1:900400010002
on 1 3209 0003612f62 0001 00 21 -> accepted=1 entered=1>r1 1:40020001
on 1 a208 0002 00 0003612f62 -> 1:b00400020000
pump 1 -> 1:32090003612f6200010021
on 1 40020001 -> ended=1>r1:Taken
"
}
