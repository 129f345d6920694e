//! Lines and sessions that end: Wills, Keep Alive, expiry, DISCONNECT (MQTT 5.0, 3.1.2, 3.14, 4.1, 4.13).

/// Scripts of lines and sessions that end.
pub fn closing() -> &'static str {
    "\
-- a Will waits for its delay or for its session's end, whichever is first
link -> 1
connect 1 r1 -> 1:connected
on 1 8209 0001 00 0003612f62 02 -> 1:900400010002
link -> 2
on 2 1021 00044d515454 05 04 0000 05 1100000005 000177 05 180000000a 0003612f62 000121 -> 2:connected
lost 2 -> closed=2
at 4999
tick
at 5000
tick -> accepted=1 1:30070003612f620021 again
tick -> again
tick
link -> 3
connect 3 w -> 3:connected

-- a Will waits for its delay where its session lives longer
link -> 1
connect 1 r1 -> 1:connected
on 1 8209 0001 00 0003612f62 02 -> 1:900400010002
link -> 2
on 2 1021 00044d515454 05 04 0000 05 11ffffffff 000177 05 180000000a 0003612f62 000121 -> 2:connected
lost 2 -> closed=2
at 9999
tick
at 10000
tick -> accepted=1 1:30070003612f620021 again
tick
link -> 3
connect 3 w -> 3:resumed

-- a client that comes again in time takes its Will back
link -> 1
connect 1 r1 -> 1:connected
on 1 8209 0001 00 0003612f62 02 -> 1:900400010002
link -> 2
on 2 1021 00044d515454 05 04 0000 05 11ffffffff 000177 05 180000000a 0003612f62 000121 -> 2:connected
lost 2 -> closed=2
at 3000
link -> 3
connect 3 w -> 3:resumed
at 10000
tick
lost 3 -> closed=3
tick

-- a Will is published at once where it has no delay, and dropped by DISCONNECT 00 alone
link -> 1
connect 1 r1 -> 1:connected
on 1 8209 0001 00 0003612f62 02 -> 1:900400010002
link -> 2
on 2 1017 00044d515454 05 04 0000 00 000177 00 0003612f62 000121 -> 2:connected
on 2 e000 -> closed=2
link -> 3
on 3 1017 00044d515454 05 04 0000 00 000177 00 0003612f62 000121 -> 3:connected
on 3 e00104 -> accepted=1 1:30070003612f620021 closed=3
link -> 4
on 4 1017 00044d515454 05 04 0000 00 000177 00 0003612f62 000121 -> 4:connected
lost 4 -> accepted=2 1:30070003612f620021 closed=4

-- a Clean Start publishes the Will that waits
link -> 1
connect 1 r1 -> 1:connected
on 1 8209 0001 00 0003612f62 02 -> 1:900400010002
link -> 2
on 2 1021 00044d515454 05 04 0000 05 11ffffffff 000177 05 180000000a 0003612f62 000121 -> 2:connected
lost 2 -> closed=2
link -> 3
on 3 1013 00044d515454 05 02 0000 05 11ffffffff 000177 -> accepted=1 1:30070003612f620021 3:connected

-- a session without expiry may not get one, and its Will is published
link -> 1
connect 1 r1 -> 1:connected
on 1 8209 0001 00 0003612f62 02 -> 1:900400010002
link -> 2
on 2 1017 00044d515454 05 04 0000 00 000177 00 0003612f62 000121 -> 2:connected
on 2 e007 00 05 110000000a -> accepted=1 2:e00182 1:30070003612f620021 closed=2
link -> 3
connect 3 w -> 3:connected

-- a Will for which a queue has no room is dropped
limits refuse 1 1000 1000
link -> 1
connect 1 r1 -> 1:connected
on 1 8209 0001 00 0003612f62 02 -> 1:900400010002
link -> 2
connect 2 p1 -> 2:connected
on 2 340a 0003612f62 000a 00 6869 -> accepted=1 entered=1>r1 2:5002000a
link -> 3
on 3 1017 00044d515454 05 0c 0000 00 000177 00 0003612f62 000121 -> 3:connected
lost 3 -> willrefused=w closed=3

-- a client that says nothing for one and a half times its Keep Alive is closed
link -> 1
on 1 100d 00044d515454 05 02 003c 00 0000 -> 1:20170000141200066175746f2d3121001422000a2700010000
at 89999
tick
at 90000
tick -> 1:e0018d closed=1 again
tick
link -> 2
connect 2 auto-1 -> 2:2003008500 closed=2

-- any packet counts for Keep Alive
link -> 1
on 1 100d 00044d515454 05 02 003c 00 0000 -> 1:20170000141200066175746f2d3121001422000a2700010000
at 60000
on 1 c000 -> 1:d000
at 149999
tick
at 150000
tick -> 1:e0018d closed=1 again
tick

-- a line that never sends CONNECT is closed after ten seconds
at 1
link -> 1
link -> 2
on 2 10
at 10000
tick
at 10001
tick -> closed=1 again
tick -> closed=2 again
tick

-- DISCONNECT may shorten a session's life
link -> 1
connect 1 c -> 1:connected
on 1 e007 00 05 1100000002 -> closed=1
at 1999
tick
at 2000
tick -> again
tick
link -> 2
connect 2 c -> 2:connected

-- a session of which the end is due is not resumed, though no tick came
link -> 1
connect 1 c -> 1:connected
on 1 e007 00 05 1100000002 -> closed=1
at 2000
link -> 2
connect 2 c -> 2:connected

-- a restart closes every session that was connected
link -> 1
connect 1 c -> 1:connected
link -> 2
on 2 1013 00044d515454 05 02 0000 05 1100000005 000164 -> 2:connected
at 1000
restart
at 5999
tick
at 6000
tick -> again
tick
link -> 1
connect 1 c -> 1:resumed
link -> 2
connect 2 d -> 2:connected

-- a restart publishes the Wills that are due
link -> 1
connect 1 r1 -> 1:connected
on 1 8209 0001 00 0003612f62 02 -> 1:900400010002
link -> 2
on 2 1017 00044d515454 05 0c 0000 00 000177 00 0003612f62 000121 -> 2:connected
restart
link -> 1
connect 1 r1 -> 1:resumed
pump 1 -> 1:32090003612f6200010021
on 1 40020001 -> ended=1>r1:Taken

-- a Will is retained where it says so
link -> 1
on 1 1017 00044d515454 05 24 0000 00 000177 00 0003612f62 000121 -> 1:connected
lost 1 -> accepted=1 closed=1
link -> 2
connect 2 r1 -> 2:connected
on 2 8209 0001 00 0003612f62 00 -> 2:900400010000 2:31070003612f620021
"
}
