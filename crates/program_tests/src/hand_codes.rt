// Codes by hand and what comes of them. `verdict` says what the verifier does; `checked`, `untagged` and `both` what
// one machine or both do within a budget; `steps` what a run costs, where each step costs 1. At each budget up to that,
// and one more, both do the same and leave the same tables.
#![tactic(auto)]

/// Faults, rules, calls and returns, over the constant `.T.` and the table T without records.
pub const FAULTS: &str = "%table T.DBF K C 1 0
%constants L 1|
#CENTURY in a code of the first version
%code 0x46 3 1 0; 0x14 0 0 0;
%verdict refused hand.xbc Operation
#CENTURY in a code of the second version
%set 4 2%code 0x46 3 1 0; 0x14 0 0 0;
%verdict accepted
#a slot that is unset
%stack 1%slots 1%code 0x02 4 0 0; 0x14 0 0 0;
%verdict Unset 0%checked 100 fault Unset 0 0
#a slot that is unset, with no budget
%stack 1%slots 1%code 0x02 4 0 0; 0x14 0 0 0;
%checked 0 fault Unset 0 0
#a full stack
%stack 0%code 0x01 0 0 0; 0x14 0 0 0;
%verdict StackOver 0%checked 100 fault StackOver 0 0
#an empty stack
%stack 1%code 0x05 4 0 0; 0x14 0 0 0;
%verdict StackUnder 0%checked 100 fault EmptyStack 0 0
#the wrong kind
%stack 1%code 0x01 0 0 0; 0x05 2 0 0; 0x14 0 0 0;
%checked 100 fault WrongKind 1 1
#a jump to nowhere, and no end
%stack 1%code 0x10 0 0 9;
%verdict Jump 0
#a jump to nowhere
%stack 1%code 0x10 0 0 9; 0x14 0 0 0;
%checked 100 fault BadJump 0 0
#no such constant
%stack 1%code 0x01 0 7 0; 0x14 0 0 0;
%checked 100 fault BadField 0 0
#no such constant, taken away
%stack 1%code 0x01 0 7 0; 0x05 4 0 0; 0x14 0 0 0;
%verdict Constant 0
#a value is left
%stack 1%code 0x01 0 0 0; 0x14 0 0 0;
%verdict StackNotEmpty 1
#a jump over an end to a place with a map
%stack 1%maps 2,%code 0x10 0 0 2; 0x14 0 0 0; 0x14 0 0 0;
%verdict Fall 0
#a closed area
%over T%code 0x26 0 0 0; 0x14 0 0 0;
%checked 100 fault ClosedArea 0 0
#an order in a closed area
%over T%code 0x24 0 1 0; 0x14 0 0 0;
%checked 100 fault ClosedArea 0 0
#a refused code, whose table isn't read
%over T%works 1%code 0x26 0 0 0; 0x14 0 0 0;
%untagged 100 refused hand.xbc ClosedArea 0
#no order
%over T%code 0x20 0 0 0; 0x24 0 1 0; 0x14 0 0 0;
%checked 100 fault NoOrder 1 1
#opened twice
%over T%code 0x20 0 0 0; 0x23 2 0 0; 0x20 0 0 0; 0x14 0 0 0;
%checked 100 fault OpenTwice 2 2
#a procedure that calls itself
%over T%code 0x12 0 0 0; 0x14 0 0 0;
%verdict CallLevel 0%checked 100 fault DeepCall 0 20
#no filter
%over T%stack 1%code 0x20 0 0 0; 0x07 0 0 0; 0x14 0 0 0;
%checked 100 fault BadFilter 1 1
#a filter that leaves a text
%over T%stack 1%procedures 4 0,%filters 0 1,%code 0x20 0 0 0; 0x25 0 1 0; 0x26 0 0 0; 0x14 0 0 0; 0x07 0 0 0;
%verdict Filter 4%checked 100 fault BadFilter 2 2
#a wrong kind on a full stack
%stack 1%slots 1%code 0x01 0 0 0; 0x03 4 0 0; 0x01 0 0 0; 0x02 2 0 0;
%checked 100 fault WrongKind 3 3
#a slot that is unset and a full stack
%stack 0%slots 1%code 0x02 4 0 0; 0x14 0 0 0;
%checked 100 fault Unset 0 0
#no such constant and a full stack
%stack 0%code 0x01 0 7 0; 0x14 0 0 0;
%checked 100 fault StackOver 0 0
#a search in a closed area with an empty stack
%over T%code 0x2a 0 0 0; 0x14 0 0 0;
%checked 100 fault ClosedArea 0 0
#a search without an order and with an empty stack
%over T%code 0x20 0 0 0; 0x2a 0 0 0; 0x14 0 0 0;
%checked 100 fault EmptyStack 1 1
#opened twice with no such list
%over T%code 0x20 0 0 0; 0x23 2 0 0; 0x20 0 0 9; 0x14 0 0 0;
%checked 100 fault OpenTwice 2 2
#a call
%over T%procedures 2 1,1 0,%code 0x12 0 1 0; 0x14 0 0 0; 0x13 0 0 0;
%verdict accepted%checked 100 finished 3
#a call from level 0
%over T%procedures 2 0,1 0,%code 0x12 0 1 0; 0x14 0 0 0; 0x13 0 0 0;
%verdict CallLevel 0%checked 100 finished 3
#a return from the main procedure
%over T%code 0x13 0 0 0;
%verdict accepted%checked 100 finished 1
#a procedure that leaves a table open
%over T%procedures 2 1,2 0,%code 0x12 0 1 0; 0x14 0 0 0; 0x20 0 0 0; 0x13 0 0 0;
%verdict Exit 3%checked 100 finished 4
#a slot that is unset at the second turn
%stack 1%slots 1%constants N 1|L 1|
%code 0x01 0 0 0; 0x03 1 0 0; 0x02 1 0 0; 0x05 1 0 0; 0x01 0 1 0; 0x11 0 0 8; 0x04 0 0 0; 0x10 0 0 2; 0x14 0 0 0;
%checked 7 spent 7%checked 8 fault Unset 2 8%checked 100 fault Unset 2 8
#a slot that holds another kind at the second turn
%stack 1%slots 1%constants N 1|L 1|
%code 0x01 0 0 0; 0x03 1 0 0; 0x02 1 0 0; 0x05 1 0 0; 0x01 0 1 0; 0x11 0 0 9; 0x01 0 1 0; 0x03 4 0 0; 0x10 0 0 2;
0x14 0 0 0;
%checked 8 spent 8%checked 9 fault WrongKind 2 9%checked 100 fault WrongKind 2 9
#a value more at each turn
%stack 3%code 0x01 0 0 0; 0x10 0 0 0; 0x14 0 0 0;
%checked 5 spent 5%checked 6 fault StackOver 0 6%checked 100 fault StackOver 0 6
#a record added, written and marked
%over T%stack 1%constants T B|%steps 6
%code 0x20 0 0 0; 0x30 0 0 0; 0x01 0 0 0; 0x31 0 0 0; 0x32 0 0 0; 0x14 0 0 0;
%verdict accepted
#records added, and then all removed
%over T%stack 1%constants T B|%steps 7
%code 0x20 0 0 0; 0x30 0 0 0; 0x01 0 0 0; 0x31 0 0 0; 0x30 0 0 0; 0x35 0 0 0; 0x14 0 0 0;
%verdict accepted
";

/// Numbers, dates, settings and functions.
pub const VALUES: &str = "%stack 2
#a division
%steps 6%constants N 1|N 3|
%code 0x01 0 0 0; 0x01 0 1 0; 0x08 4 0 0; 0x40 0 0 0; 0x41 1 0 0; 0x14 0 0 0;
%rows
      0.33
#a value that waits while its slot changes
%slots 1%steps 8%constants N 1|N 2|
%code 0x01 0 0 0; 0x03 1 0 0; 0x02 1 0 0; 0x01 0 1 0; 0x03 1 0 0; 0x40 0 0 0; 0x41 1 0 0; 0x14 0 0 0;
%rows
         1
#the day
%steps 4%day 1988 2 29
%code 0x40 0 0 0; 0x09 7 0 0; 0x41 3 0 0; 0x14 0 0 0;
%rows
02/29/88
#366 days later
%steps 7%constants T 02/29/88|N 366|
%code 0x01 0 0 0; 0x08 53 0 0; 0x01 0 1 0; 0x08 21 0 0; 0x40 0 0 0; 0x41 3 0 0; 0x14 0 0 0;
%rows
03/01/89
#a text that begins as another one
%steps 8%constants T ABC|T AB|
%code 0x46 1 0 0; 0x46 2 1 0; 0x01 0 0 0; 0x01 0 1 0; 0x08 9 0 0; 0x40 0 0 0; 0x41 4 0 0; 0x14 0 0 0;
%rows
.T.
#the same where EXACT is on
%steps 8%constants T ABC|T AB|
%code 0x46 1 1 0; 0x46 2 1 0; 0x01 0 0 0; 0x01 0 1 0; 0x08 9 0 0; 0x40 0 0 0; 0x41 4 0 0; 0x14 0 0 0;
%rows
.F.
#a text that is the beginning of another one
%steps 8%constants T AB|T ABC|
%code 0x46 1 0 0; 0x46 2 1 0; 0x01 0 0 0; 0x01 0 1 0; 0x08 9 0 0; 0x40 0 0 0; 0x41 4 0 0; 0x14 0 0 0;
%rows
.F.
#a blank at the end where EXACT is on
%steps 8%constants T AB |T AB|
%code 0x46 1 1 0; 0x46 2 1 0; 0x01 0 0 0; 0x01 0 1 0; 0x08 9 0 0; 0x40 0 0 0; 0x41 4 0 0; 0x14 0 0 0;
%rows
.T.
#an empty text
%steps 8%constants T AB|T |
%code 0x46 1 0 0; 0x46 2 1 0; 0x01 0 0 0; 0x01 0 1 0; 0x08 9 0 0; 0x40 0 0 0; 0x41 4 0 0; 0x14 0 0 0;
%rows
.T.
#an empty text where EXACT is on
%steps 8%constants T AB|T |
%code 0x46 1 1 0; 0x46 2 1 0; 0x01 0 0 0; 0x01 0 1 0; 0x08 9 0 0; 0x40 0 0 0; 0x41 4 0 0; 0x14 0 0 0;
%rows
.F.
#arguments of several kinds, the second kind twice
%stack 4%steps 8%constants T ABCDE|N 2|N 3|T x|
%code 0x01 0 0 0; 0x01 0 1 0; 0x01 0 2 0; 0x01 0 3 0; 0x08 39 0 0; 0x40 0 0 0; 0x41 2 0 0; 0x14 0 0 0;
%rows
AxE
";

/// The loop that prints three rows `A`: whole, with a load of the wrong kind, cut, and of the second version, with
/// nothing known of a work area.
pub const THREE_ROWS: &str = "%stack 1%slots 2%maps 4:4 4,14:4 4,
%constants L 1|L 0|T A|
%code 0x01 0 0 0; 0x03 4 0 0; 0x01 0 0 0; 0x03 4 1 0; 0x40 0 0 0; 0x01 0 2 0; 0x41 2 0 0; 0x02 4 0 0;
0x11 0 0 14; 0x02 4 1 0; 0x03 4 0 0; 0x01 0 1 0; 0x03 4 1 0; 0x10 0 0 4; 0x14 0 0 0;
#whole
%length 216%verdict accepted%again
%both 0 spent 0
%both 29 spent 29
A
A
A
%both 30 finished 30
A
A
A
%both 1000000 finished 30
A
A
A
%steps 30%rows
A
A
A
%first
    0 CONST 0 0 0
%holds
    8 JUMPF 0 0 14
#a load of the wrong kind
%set 153 2%verdict Kind 7
%untagged 100 refused hand.xbc Kind 7
%checked 100 fault WrongKind 7 7
A
#cut
%cut 1
%both 100 refused hand.xbc Short
#a file that isn't there
%absent%checked 30 refused hand.xbc Absent
#a device that fails
%works 0%failures 1%checked 30 disk hand.xbc
#of the second version
%set 4 2%verdict accepted
%both 0 spent 0
%both 29 spent 29
A
A
A
%both 30 finished 30
A
A
A
%both 1000000 finished 30
A
A
A
%steps 30%rows
A
A
A
#with nothing known of a work area in one map
%set 4 2,67 255%verdict OtherTable 8
#with nothing known of a work area in both maps
%set 4 2,67 255,83 255%verdict accepted
%both 0 spent 0
%both 29 spent 29
A
A
A
%both 30 finished 30
A
A
A
%both 1000000 finished 30
A
A
A
%steps 30%rows
A
A
A
#of the first version with nothing known of a work area
%set 67 255,83 255%verdict refused hand.xbc Shape
";
