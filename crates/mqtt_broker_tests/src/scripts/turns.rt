//! Turns of the clock in which nothing is due, and what is due after them (MQTT 5.0, 3.1.2.11.2, 3.3.2.3.3).

/// Scripts of turns of the clock.
pub fn turning() -> &'static str {
    "\
-- nothing is done before the first moment that is due, and each thing at its moment
link -> 1
connect 1 p1 -> 1:connected
on 1 310c 0003612f62 05 0200000009 21 -> accepted=1
tick
at 1000
tick
link -> 2
connect 2 r1 -> 2:connected
on 2 8209 0001 00 0003632f64 02 -> 2:900400010002
lost 2 -> closed=2
tick
on 1 340f 0003632f64 000a 05 0200000005 6869 -> accepted=2 entered=2>r1 1:5002000a
tick
at 5999
tick
at 6000
tick -> ended=2>r1:Expired again
tick
at 8999
tick
at 9000
tick -> again
tick

-- what a step makes due sooner is done at its moment, and what was due before at its own
link -> 1
on 1 1013 00044d515454 05 02 0000 05 1100000005 000164 -> 1:connected
link -> 2
connect 2 c -> 2:connected
lost 1 -> closed=1
tick
at 1000
tick
on 2 e007 00 05 1100000002 -> closed=2
tick
at 2999
tick
at 3000
tick -> again
tick
at 4999
tick
at 5000
tick -> again
tick
link -> 3
connect 3 c -> 3:connected
link -> 4
connect 4 d -> 4:connected

-- a turn of the clock at an earlier moment does what is due at the last one
link -> 1
connect 1 r1 -> 1:connected
on 1 8209 0001 00 0003612f62 02 -> 1:900400010002
link -> 2
connect 2 p1 -> 2:connected
on 2 340f 0003612f62 000a 05 0200000005 6869 -> accepted=1 entered=1>r1 2:5002000a
tick
at 5000
on 2 c000 -> 2:d000
at 10
tick -> ended=1>r1:Expired again
tick
"
}
