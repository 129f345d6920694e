//! Queues that are opened anew, of which nothing is at hand: what their copies say is read from the store (MQTT 5.0, 4.1, 4.6).

/// Scripts of queues that are opened anew.
pub fn reopening() -> &'static str {
    "\
-- a queue that is opened anew is read from the store and sent, sixteen in a turn
link -> 1
connect 1 r1 -> 1:connected
on 1 8209 0001 00 0003612f62 02 -> 1:900400010002
times 18 on 1 3209 0003612f62 % 00 21 -> accepted=18 entered=18>r1 1:40020012
restart
link -> 1
connect 1 r1 -> 1:resumed
pump 1 \
-> 1:32090003612f6200010021 1:32090003612f6200020021 1:32090003612f6200030021 1:32090003612f6200040021 \
1:32090003612f6200050021 1:32090003612f6200060021 1:32090003612f6200070021 1:32090003612f6200080021 \
1:32090003612f6200090021 1:32090003612f62000a0021 1:32090003612f62000b0021 1:32090003612f62000c0021 \
1:32090003612f62000d0021 1:32090003612f62000e0021 1:32090003612f62000f0021 1:32090003612f6200100021 again
pump 1 -> 1:32090003612f6200110021 1:32090003612f6200120021

-- a queue of more than sixty-four that is opened anew is read twice
link -> 1
connect 1 r1 -> 1:connected
on 1 8209 0001 00 0003612f62 02 -> 1:900400010002
times 66 on 1 3209 0003612f62 % 00 21 -> accepted=66 entered=66>r1 1:40020042
restart
link -> 1
connect 1 r1 -> 1:resumed
times 5 pump 1 -> 1:32090003612f6200410021 1:32090003612f6200420021
on 1 40020041 -> ended=65>r1:Taken
restart
link -> 1
connect 1 r1 -> 1:resumed
times 5 pump 1 -> 1:3a090003612f6200420021
"
}
