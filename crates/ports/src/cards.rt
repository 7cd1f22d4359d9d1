// The text of the cards, in the order of the page.
use crate::Card;

// A proof about a function that names the table has all of the text in it, so only this one does.
pub(crate) fn all() -> &'static [Card] {
    &CARDS
}

static CARDS: [Card; 22] = [
    Card {
        title: "cards help: how to read the cards; card NAME prints one: card 2A, card IW1",
        lines: "NAME  a port, or any other word before the colon of a title, in either case
D7-D0  the bits of the byte, D7 the highest
Dn  the bit of level n, or of channel n
00 to FF  ports, bytes and addresses are hexadecimal, pulses decimal
001  after D7-D5 and the like: these bits, the highest first
(4)  is refused, with the status 4: card refused
(1)  meets every port that is there while a DMA channel has the bus
write 2A 44  a record, as lessons have it
",
    },
    Card {
        title: "00 0 master INT lines: interrupt chip: takes IW1, MCW, PFCW; shows IRR, ISR",
        lines: "D4  1: IW1, at any time. The chip starts anew. Card IW1
D4-D3  01: MCW, chooses what a read shows. Card MCW
D4-D3  00: PFCW, finishes a level or turns the ranks. Card PFCW
read  IRR, the levels that ask; after MCW 0B it is ISR, those in service
D7-D0  of IRR and ISR: level 7 to level 0. A read clears nothing.
(3)  a read, MCW or PFCW before the chip is ready. The way there:
write 00 13  IW1: edge trigger, single, IW4 follows
write 01 40  IW2: vectors 40 to 47
write 01 01  IW4: vector mode, normal FI. Now it is ready.
line 0  is OUT0 of the timer; intp with D0 set is refused (2)
line 1 to 7  the record intp has them in D1 to D7, all at once: intp 08 is
  line 3 high and the others low, so their requests go
line 7  is high too while the slave's INT is
INT  high while the chip is ready and a level that asks and is not
  masked outranks every level in service
INT  is the last column of a lesson's rows
write 00 0B  MCW: reads of 00 show ISR from now on
write 00 20  PFCW: finish the highest-ranked level in service
",
    },
    Card {
        title: "IW1 LEV AG4 SNGL I4 edge level: first word of an interrupt chip, port 00",
        lines: "D7-D5  A7-A5 of the CALL address; in vector mode of no use, write 000
D4  1: this is IW1
D3  LEV: 0 edge trigger, 1 level trigger
D2  AG4: CALL addresses stand 4 bytes apart (1) or 8 bytes (0)
D1  SNGL: 1 single; 0 extended, and IW3 follows
D0  I4: 1 IW4 follows; 0 there is none: CALL mode and normal FI
write  at any time; the slave's goes to 30. IW2 is awaited then, at 01.
It clears the edge requests, ISR, IMR and all of IW4. Reads show IRR, level
7 is the lowest, and rotation in self-FI is off.
edge  a line that rises while the chip is ready asks until acknowledged;
  a fall before that takes the request away, masked or not
edge  a line that is high already asks after a fall and a rise
level  a line asks as long as it is high
(3)  is the answer to an acknowledge where one chip is extended and ready
  and the other is single or not ready
write 00 13  edge, single, IW4 follows
write 00 11  edge, extended, IW3 and IW4 follow
write 00 1B  level, single, IW4 follows
",
    },
    Card {
        title: "01 1 IW2 IW3 IMR: interrupt chip: takes IW2, IW3, IW4, then IMR; shows IMR",
        lines: "after IW1  the first byte is IW2
after IW2  IW3 if D1 of IW1 is 0
after that  IW4 if D0 of IW1 is 1. Card IW4
after that  the chip is ready, and every byte is IMR
IW2 D7-D3  vector mode: the upper five bits of the vectors
IW2 D2-D0  vector mode: ignored, the level stands there
IW2 D7-D0  CALL mode: the upper byte of the address
IW3 D7-D0  80, a slave on line 7. Any other is refused (4), and IW3 is
  awaited still. The slave's is 07, at 31.
IMR Dn  1 masks level n: it makes no INT. IRR shows it all the same.
IMR  a masked level in service still holds up those below it
read  IMR
(3)  a write before IW1, a read before the chip is ready
write 01 40  after IW1: IW2, vectors 40 (level 0) to 47 (level 7)
write 01 80  after IW2, if extended: IW3
write 01 01  then, if announced: IW4, vector mode
write 01 F7  when ready: IMR, all levels masked but level 3
",
    },
    Card {
        title: "IW4 SFI vector CALL acknowledge: last word of an interrupt chip, port 01",
        lines: "D7-D2  ignored here; on the chip EXTN, BUF and BSV. Write 0.
D1  SFI: 0 normal FI, 1 self-FI
D0  1 vector mode, 0 CALL mode. With no IW4 it is CALL mode.
Then the chip is ready. The slave's goes to 31.
An acknowledge takes level n, the highest-ranked that asks and is unmasked:
request  of level n goes; in level trigger its line asks on
normal FI  bit n of ISR is set, until PFCW finishes it
self-FI  no ISR bit is set, so nothing holds up a later request, in level
  trigger not the same line either; n becomes lowest if PFCW 80 turned it on
vector  one byte: D7-D3 of IW2, then n. IW2 40 and level 3: 43
CALL  three bytes, CD, low and high. High is IW2.
AG4 1  low is D7-D5 of IW1 plus 4n. IW1 B6, IW2 12, level 3: CD AC 12
AG4 0  low is D7-D6 of IW1 plus 8n. IW1 B2, IW2 12, level 3: CD 98 12
level 7  of an extended master: the slave gives the bytes. Card 30
INT low  the master answers as its level 7, and nothing changes: no ISR bit
  is set, no request goes, no rank turns. Give no finish for it. In normal FI
  D7 of ISR is 0 then, unless level 7 was in service before.
(3)  the master is not ready, or the two do not fit: card IW1. Two extended
  chips have to be both in vector mode or both in CALL mode.
write 01 01  vector mode, normal FI
write 01 03  vector mode, self-FI
",
    },
    Card {
        title: "MCW IRR ISR: chooses what a read of 00 shows; the slave's goes to 30",
        lines: "D7  ignored
D6-D5  SNM, EXCN: 11, exceptional nesting, is refused (4); else no effect
D4-D3  01: this is MCW
D2  POL: 1, polling, is refused (4)
D1-D0  10 reads show IRR, 11 reads show ISR, 00 and 01 leave it as it is
It stays so until another MCW. IW1 brings IRR back.
(3)  before the chip is ready
IRR  Dn is 1 while level n asks, masked or not
IRR  edge trigger: set by a rise of the line, cleared by its acknowledge,
  by a fall of the line, and by IW1
IRR  level trigger: the lines as they are
ISR  Dn is 1 while level n is in service: set by its acknowledge, cleared
  by PFCW and IW1. In self-FI no bit is set.
write 00 0A  reads of 00 show IRR
write 00 0B  reads of 00 show ISR
read 00  24 after MCW 0B: levels 2 and 5 are in service
",
    },
    Card {
        title: "PFCW FI RP SIL ranks: finishes a level or turns the ranks, port 00",
        lines: "D7  RP: rotate
D6  SIL: the level is named in D2-D0
D5  FI: finish
D4-D3  00: this is PFCW
D2-D0  the level, where D6 is 1; else ignored
001  in D7-D5: the highest-ranked level in service ends, and no other
101  the same, and it becomes the lowest
011  the named level ends
111  the same, and it becomes the lowest, also if it was not in service
110  the named level becomes the lowest; nothing ends
100  in self-FI, each level that is acknowledged becomes the lowest
000  ends that; the ranks stay
010  nothing
ranks  after IW1 level 0 is the highest and 7 the lowest. If the lowest is
  L, the highest is L plus 1, and so on round to L.
none  in service: 001 and 101 do nothing
(3)  before the chip is ready
write 00 20  finish. A level of the slave: write 30 20, then write 00 20
write 00 63  finish level 3
write 00 A0  finish, and make that level the lowest
write 00 C2  level 2 becomes the lowest, and 3 the highest
",
    },
    Card {
        title: "10 11 12 counter: the counts of the counters 0, 1 and 2",
        lines: "The control word at 13 comes first. It has the bytes (RWM) and the mode.
RWM 01  a byte is the low byte of a count; its high byte is 00
RWM 10  a byte is the high byte; its low byte is 00
RWM 11  two bytes, low one first. Until the second the old count stands.
0000  is a count of 65,536
write  stores the count. The counter takes it over at a later pulse:
  modes 0 and 4: at the next one
  modes 2 and 3: the first count at the next one, a later count when
  the counter reloads: card modes
  modes 1 and 5: at the pulse after GATE rises
mode 0  each byte written takes OUT low, and half a count stops counting.
  A request by OUT0 that is not acknowledged yet goes with it.
read  the counter's value now, or what a latch holds; bytes as RWM says
RWM 11  a read of one byte leaves the high byte for the next read. Reads
  and writes have a place each; a mode word sets both back.
(3)  a read or a write with no mode set
(6)  a count of 1 in modes 2 and 3. With RWM 11 the low byte is kept,
  and the next byte is a high one again.
write 10 05  after write 13 10: count 5. OUT0 rises at the sixth pulse.
",
    },
    Card {
        title: "13 control SC RWM CM BCD latch: control word of the timer, not to be read",
        lines: "D7-D6  SC: counter 0, 1 or 2; 11, the multiple latch, is refused (4)
D5-D4  RWM: 00 latch, 01 low byte, 10 high byte, 11 both, low byte first
D3-D1  CM: the mode, 000 to 101; 110 is mode 2, 111 is mode 3. Card modes
D0  BCD: 0 binary; 1 is refused (4)
With RWM 01, 10 or 11 it is a mode word: OUT goes low in mode 0, high in
the others. A latch, a trigger, half a count and half a read are dropped.
The value stays (after reset 0000); nothing counts until a count is complete.
OUT0  is line 0 of the master, once that is ready: a mode word that raises it
  makes a request, a word of mode 0 takes it away. In level trigger it asks
  as long as OUT0 is high, and modes 1 to 5 start high.
With RWM 00 it is a latch, and D3-D0 are ignored. Reads then show the value
of that moment, while the counter goes on. The latch is free when its last
byte is read; until then a second latch does nothing. After half a read the
next byte is a high one, latched or not; only that one is the latch's.
(3)  a latch for a counter with no mode
(2)  a read of 13
write 13 10  counter 0: low byte, mode 0
write 13 34  counter 0: both bytes, mode 2
write 13 76  counter 1: both bytes, mode 3
write 13 98  counter 2: low byte, mode 4
write 13 00  latch counter 0; 40 counter 1, 80 counter 2
",
    },
    Card {
        title: "modes GATE OUT: the six modes of a counter, with a count of N",
        lines: "mode 0  OUT low; N + 1 pulses after the count is written it goes high
mode 1  OUT high; at the pulse after GATE rises it goes low for N pulses
mode 2  OUT high; low for one pulse in N, the last one of each period
mode 3  OUT high for half of N pulses, low for the other half. An odd N has
  the longer half high. Once loaded it counts by twos: reads are even.
mode 4  OUT high; N + 1 pulses after the count is written low for one pulse
mode 5  as mode 4, N + 1 pulses after GATE rises
pulse  the first one takes the count over, and counts nothing
reload  mode 2: at the end of each period. Mode 3: at the end of each half.
  Both: at the pulse after GATE rises; OUT is high then.
GATE 0  modes 0, 2, 3 and 4 do not count; in 2 and 3 a low OUT goes high at
  once, and OUT0 asks. The first count is taken over all the same, in modes 0
  and 4 any; these then need N pulses more once GATE is high.
GATE 0  modes 1 and 5 count on; a rise alone matters, and starts them anew
rise  of GATE before the first count is complete: starts nothing
past 0  modes 0, 1, 4 and 5 count on, from 0 to FFFF and down; 4 and 5 have
  OUT low for one pulse whenever they come to 0
least  N is 1; in modes 2 and 3 it is 2, and 1 is refused (6)
gates 06  takes GATE0 low; gates 07 after it is a rise of GATE0. After reset
  all three are high, so gates 07 alone is no rise.
advance 5  gives five pulses to all three counters
",
    },
    Card {
        title: "20 initialize RES 16B: the DMA chip's reset and its bus, not to be read",
        lines: "D7-D2  ignored. Write 0.
D1  16B: 0 the bus has 8 bits; 1 it has 16, and words can be moved
D0  RES: 1 resets the chip; 0 changes the bus alone
reset  masks all four channels. Modes, device control and end bits are 0, and
  addresses and counts, current and base: on the chip these two stay. Channel
  0 is selected, with BASE 0. The request lines stay.
(2)  a read
(4)  D1-D0 00 while a channel, masked or not, has a word mode (D0 of 2A)
After the record reset the bus has 8 bits.
write 20 01  reset, 8-bit bus
write 20 02  16-bit bus, no reset
write 20 03  reset, 16-bit bus
",
    },
    Card {
        title: "21 channel SELCH BASE: the DMA channel that 22 to 26 and 2A are about",
        lines: "write D7-D3  ignored. Write 0.
write D2  BASE: what 22 to 26 write and read
write D1-D0  SELCH: channel 0 to 3
BASE 0  a write goes to base and current, a read shows current
BASE 1  a write goes to base alone, a read shows base
current  where a transfer is now
base  what AUTI (D4 of 2A) starts it again from
read D7-D5  000
read D4  BASE
read D3-D0  a single bit is 1: Dn for channel n
write 21 01  channel 1; read 21 shows 02
write 21 07  channel 3, base; read 21 shows 18
",
    },
    Card {
        title: "22 23 count: count of the selected DMA channel, low byte (22) and high (23)",
        lines: "N  as a count moves N plus one units: bytes, or words with D0 of 2A
words  for B bytes N is half of B, less one
21  says whose count it is, and whether base alone is meant
write  replaces this byte and leaves the other one. Write both.
read  current: what is left, less one; FFFF once it ran out. END leaves it
  there, less its own unit, and masks the channel. With AUTI it is base again.
unit  each one takes 1 from current; one that finds it at 0 is the last
END  ends a transfer sooner, with the unit that it comes with; in a cycle
  that moves no unit it is nothing
The count of a counter is card 10.
write 22 02  and write 23 00: count 0002, three units
write 22 FF  and write 23 01: count 01FF, 512 units
",
    },
    Card {
        title: "24 25 26 address: address of the selected DMA channel, 24 low to 26 high",
        lines: "21  says whose address it is, and whether base alone is meant
write  replaces this byte and leaves the other two. Write all three.
read  current, that of the next unit. With AUTI the end brings back base.
step  1 for each unit, 2 with words; up or down as D5 of 2A says. Upwards
  000000 comes after FFFFFF, with words after FFFFFE; downwards the reverse.
words  the lower byte has the even address, the upper the next. At an odd
  address the pair starts one below, and to memory it overwrites that byte.
end  a lesson has memory from 000000 to 00FFFF, or as lend says. Past it a
  write is lost and a read gives FF. No port tells; the row of a lesson does.
write 24 34  low byte of 001234
write 25 12  its middle byte
write 26 00  its high byte
",
    },
    Card {
        title: "27 2C 2D 2E: DMA chip: ports that this board does not have",
        lines: "27  there is no such register: read and write are refused (2)
2C 2D  the temporary register: read and write are refused (4)
2E  requests by software: read and write are refused (4). The record
  requests has the four request lines in D3-D0: requests 01
",
    },
    Card {
        title: "28 29 device ROT DDMA: device control of the DMA chip",
        lines: "28 D4  ROT: 0 fixed ranks, channel 0 first; 1 rotating ranks
28 D2  DDMA: 1 disables the chip: no channel gets the bus
28  any other bit is refused (4): D7 AKL, D6 RQL, D5 EXW, D3 CMP,
  D1 AHLD, D0 MTM
29  any bit is refused (4). Write 00.
read  28 shows D4 and D2, 29 shows 00
ROT 1  the channel that gives the bus back becomes the last, and the next
  number the first; after 3 comes 0. Turned on, channel 0 is first.
write 28 04  disable, before registers are written while a device asks
write 28 14  the same with rotating ranks: 04 ends the rotation, and 10 after
  it starts again with channel 0
write 28 00  enable, fixed ranks
write 28 10  enable, rotating ranks
",
    },
    Card {
        title: "2A mode TMODE ADIR AUTI TDIR W/B: mode of the DMA channel selected by 21",
        lines: "D7-D6  TMODE: 00 demand, 01 single, 10 block; 11, cascade, is refused (4)
D5  ADIR: 0 upwards, 1 downwards
D4  AUTI: 1 autoinitialize: at the end address and count start again
  from base, and the channel is not masked. 0: it is masked.
D3-D2  TDIR: 00 verify, 01 to memory, 10 to the device; 11 is refused (4)
D1  0; 1 is refused (4)
D0  W/B: 0 bytes; 1 words, refused (4) on the 8-bit bus. Card 20
read  the mode as it was written; 00 after a reset
cycle  the first gives the channel the bus and moves nothing. Then:
cycle 41  the device's byte; with words cycle 41 42, and 00 if 42 is left out
demand  a unit a cycle to the end; a cycle with the request low moves nothing
  and frees the bus
single  one unit, then the bus is free. The next cycle grants it anew if it
  still asks and no channel before it does.
block  a unit a cycle to the end, whatever the request does
end  frees the bus, with AUTI too; a cycle has to grant it anew
verify  steps and counts, and moves nothing
The mode of a counter is card modes.
write 2A 44  single, to memory, bytes, upwards
write 2A 88  block, to the device, bytes, upwards
write 2A 54  single, to memory, bytes, upwards, autoinitialize
write 2A 85  block, to memory, words, upwards; write 20 02 before it
",
    },
    Card {
        title: "2B status RQ TC: status of the DMA chip, not to be written",
        lines: "D7-D4  RQ3 to RQ0: the request lines as they are now, masked or not
D3-D0  TC3 to TC0: the channel came to its end, by its count or by END
A read clears D3-D0 and nothing else. No write but a reset at 20 clears them:
an end bit that was not read stays on through the next transfer.
(2)  a write
(1)  a read while a channel has the bus; it clears nothing
An end bit does not say that each byte is in memory: card 24.
read 2B  11: channel 0 came to its end, and its request is still high
read 2B  10: the same once more; the first read cleared the end bit
",
    },
    Card {
        title: "2F masks: which DMA channels may get the bus",
        lines: "D7-D4  ignored; they read 0
D3-D0  channel 3 to channel 0: 1 masked, 0 open
write  sets all four at once. Write it last, after mode, count and address.
read  the four masks
After a reset all are masked, 0F. The end of a transfer masks its channel,
unless its mode has AUTI. The request of a masked channel shows in 2B.
write 2F 0E  channel 0 alone is open
write 2F 0D  channel 1 alone is open
write 2F 0F  all are masked
",
    },
    Card {
        title: "30 slave: the second interrupt chip: as 00, and what is different here",
        lines: "IW1, MCW, PFCW, IRR and ISR are as the master's: cards 00, IW1, MCW, PFCW.
lines  the record slave has lines 0 to 7 in D0 to D7, all at once; none is
  a counter's
INT  goes to line 7 of the master, beside INTP7, and is in no column
Both chips extended: where an acknowledge takes level 7 in the master, it
takes a level in the slave too, and the slave gives the bytes.
finish  both: write 30 20, then write 00 20. Neither does the other's work.
INT low  with INTP7 high: the slave answers as its level 7 and sets no ISR
  bit; the master sets its own, but not in self-FI. Finish the master alone.
Both single: the master gives its own bytes of level 7; nobody serves the
slave, which asks on.
edge  the master asks anew only when line 7 rises. It does not while INTP7 or
  the slave's INT stays high, as in self-FI of the slave with a second level
  asking; nor if it was high before the master was ready.
write 00 11  then 01 40, 01 80, 01 01: the master, extended, vectors 40-47
write 30 11  then 31 38, 31 07, 31 01: the slave, extended, vectors 38-3F
slave 04  line 2 of the slave; the acknowledge after it gives 3A
",
    },
    Card {
        title: "31: the second interrupt chip: as 01, and what is different here",
        lines: "IW2, IW4 and IMR are as the master's: cards 01 and IW4.
IW3 D7-D0  07, the line of the master that the slave is on. Any other is
  refused (4), and IW3 is awaited still.
IW2  another one than the master's, so that the vectors differ
IW4 D0  as in the master's; if not, with both extended, an acknowledge is
  refused (3)
IMR  masks levels of the slave. D7 of the master's masks them all.
read  IMR of the slave
(3)  a write before IW1 at 30, a read before the slave is ready
write 31 38  after IW1: IW2, vectors 38 to 3F
write 31 07  after IW2, if extended: IW3. In single it would be IW4, self-FI.
write 31 01  then IW4: vector mode, normal FI
write 31 FB  when ready: IMR, all levels masked but level 2
",
    },
    Card {
        title: "refused statuses: the status numbers, which the cards have as (4)",
        lines: "0  done
1  a read, write or acknowledge while a DMA channel has the bus; so it is
  for every port. It ends by cycle, and each cycle moves a unit: to memory,
  cycle with no byte moves 00. In demand a low request ends it with no unit.
2  no such record: no such port, line or level, a port that cannot be read
  or written, more than 65535 pulses; of raw, any byte that does not fit
3  out of turn: an interrupt chip waits for a word, a counter has no mode,
  or master and slave do not fit for an acknowledge
4  the chip has it and this board does not, or no sheet says what it does
  (TDIR 11, D1 of 2A); or words and the 8-bit bus together
5  is never given
6  a count of 1 in mode 2 or 3
7  no record has it: a whole call of the library was refused
Where several fit, it is the first of 2, 1, 3, 4, 6.
A refused record changes nothing, and the records after it go on.
",
    },
];
