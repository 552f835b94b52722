//! The cases whose allocations are refused, in the format of `cases/README.md`: a good and a faulty run of each command.

/// Answers to events.
pub const RUNS: &str = "\
# run, with a model in a file
$ run a.model
% object x register 0
% object n counter 0
% class flat
% starts begin
% may operate commit abort permit
% scope others
% policy refuse
% commit keeps
% delegation whole
% end
| begin 1 flat
| begin 2 flat
| do 1 x write 5
| do 2 x read
| permit 1 2 x
| do 2 x read
| do 1 n add 1
| do 2 n get
| do 1 x write 6
| abort 1
| permit 1 2 x
| permit 2 3 x
| permit 2 2 x
ok 1
ok 2
ok 3 done
no 14 by 1
ok 4
ok 5 5
ok 6 done
no 14 by 3
no 14 by 2
ok 7
no 7 by 1
no 10 by 3
no 6 by 2
status 0

# A faulty line
$ run @atomic
| begin 1 flat
| do 1 x write 5
| commit x
ok 1
ok 2 done
line 3 fault 4
status 1

# A faulty text
$ run a.model
% class a
% starts begin
| begin 1 a
model line 2 fault 8
status 1

# A faulty image
$ run a.image
& 41435441 02
| begin 1 a
image fault 3
status 1
";

/// Kept events, and traces.
pub const KEPT_AND_TRACES: &str = "\
# run --kept
$ run --kept @split_join
| begin 1 part
| do 1 x write 5
| do 1 n add 3
| split 1 2 part 2,1
| join 1 2
| begin 3 part
| delegate 2 3 -
| delegate 2 3 1,1
begin 1 part
do 1 x write 5 = done
do 1 n add 3 = done
split 1 2 part 1,2
join 1 2
begin 3 part
delegate 2 3 -
delegate 2 3 1
status 0

$ run --kept @atomic
| begin 1 flat
| do 1 x write 5
| commit x
begin 1 flat
do 1 x write 5 = done
line 3 fault 4
status 1

# trace
$ trace @recoverable
| begin 1 loose
| begin 2 loose
| do 1 x write 5
| do 2 n add 1
| do  2 x  read   # a comment
| do 1 n get
| commit 1
| commit 2
| do 3 x read
1 ok 1 : begin 1 loose
2 ok 2 : begin 2 loose
3 ok 3 done : do 1 x write 5 : op 1
4 ok 4 done : do 2 n add 1 : op 2
5 ok 5 5 : do 2 x read : op 3 : edge 1 AD 2 1 : edge 2 TD 2 1
6 ok 6 1 : do 1 n get : op 4 : edge 3 AD 1 2 : edge 4 TD 1 2
7 no 21 by 4 : commit 1
8 no 21 by 2 : commit 2
9 no 7 by 3 : do 3 x read
status 0

$ trace @atomic
| begin 1 flat
| begni 2 flat
| commit 1
1 ok 1 : begin 1 flat
> line 2 fault 2
status 1
";

/// Serial orders and verdicts.
pub const HISTORIES: &str = "\
# serial
$ serial @atomic
| begin 1 flat
| begin 2 flat
| begin 3 flat
| do 1 n add 5
| do 2 x write 1
| do 2 n add 7
| do 3 m add 9
| commit 2
| do 1 x read
| commit 1
do 2 x write 1 = done
do 2 n add 7 = done
do 1 n add 5 = done
do 1 x read = 1
status 0

$ serial @split_join
| begin 1 part
| commit 1
serial fault 1
status 1

# judge
$ judge @contingent
| form SCD 2 1
| begin 1 try
| commit 1
| commit 3
fault 2 4 3
owed 1 2 commit
status 0

$ judge @atomic
| commit 1
| # nothing
| commit x
line 3 fault 4
status 1
";

/// Debuggers.
pub const DEBUGGERS: &str = "\
# debug
$ debug @atomic
| begin 1 flat
| do 1 s insert 4
| do 1 s insert 1
| --
| break object s
| run
| back
| value s
| status 1
break 1 set
break 1 at 2
at 1
value s {}
> status 1 inprogress
status 0

$ debug @atomic
| begin 1 flat
| --
| step
| commit 1
at 1
line 4 fault 2
status 1
";

/// Texts and images of models.
pub const MODELS: &str = "\
# assemble
$ assemble @nested
= 41435441 02 02 0004 01 78 00 00000000 01 6e 01 00000000 01 6d 01 00000000 01 73 02 00000000 03 746f70 01 00e1 01 00
= 0000 00 00 00 00 03 737562 02 00e1 01 00 0000 01 00 02 0000 0301 00
status 0

$ assemble a.model
% class a
model line 1 fault 8
status 1

# check-image
$ check-image atomic.image
& 41435441 01 01 0004 01 78 00 00000000 01 6e 01 00000000 01 6d 01 00000000 01 73 02 00000000 04 666c6174 01 00e0 00 00
& 0000 00 00 00 00
object x register 0
object n counter 0
object m counter 0
object s set
class flat
starts begin
may operate commit abort
scope others
policy refuse
commit keeps
delegation whole
end
status 0

$ check-image @atomic
image fault 1
status 1

# upgrade
$ upgrade atomic.image
& 41435441 01 01 0004 01 78 00 00000000 01 6e 01 00000000 01 6d 01 00000000 01 73 02 00000000 04 666c6174 01 00e0 00 00
& 0000 00 00 00 00
= 41435441 02 01 0004 01 78 00 00000000 01 6e 01 00000000 01 6d 01 00000000 01 73 02 00000000 04 666c6174 01 00e0 00 00
= 0000 00 00 00 00
status 0

$ upgrade a.image
& 41435441 01 01 0001 01 78 00 00000000 04 666c6174 01 00e0 00 00 0000 00 00 00 00 00
image fault 5 at 31
status 1
";

/// Driven runs.
pub const DRIVES: &str = "\
# drive
$ drive --workers 1 @atomic
| 1 begin 1 flat
| 1 do 1 x write 5
| 1 commit 1
1 1 begin 1 flat : ok 1
2 1 do 1 x write 5 : ok 2 done
3 1 commit 1 : ok 3
status 0

$ drive --workers 1 @atomic
| 1 begin 1 flat
| 2 begin 2 flat
line 2 fault 4
status 1

# Verdicts follow the entries
$ drive --workers 2 --watch 3 @atomic
front 0 0 0
front 0 0 0
front 0 0 0
status 0
";
