// Programs of several files, and declaration files. `files` names the command files behind the main one, and `file`
// says what stands in one of them or in another file. `tables` and `indexes` say how many more are declared behind the
// lines.
#![tactic(auto)]

pub const SEVERAL: &str = r#"
#a procedure of the second file
%each 9
%untold disk MAIN.DCL|disk MAIN.PRG|disk calls.prg|disk MAIN.XBC
%files calls.prg
%file calls.prg
PROCEDURE P
? "P"
%source
? "A"
DO P
%rows
A
P
%ended finished 9
#a file whose name has small letters
%each 6
%files paid.prg
%file paid.prg
? "paid"
%source
DO PAID
%rows
paid
%ended finished 6
#a file whose name has no point
%each 6
%files paid
%file paid
? "paid"
%source
DO PAID
%rows
paid
%ended finished 6
#a name goes up to the last point
%files paid.old.prg
%file paid.old.prg
? "paid"
%source
DO PAID
%refused refused MAIN.PRG line 1 Name
#three files, each of which calls the next one
%each 17
%files two.prg three.prg
%file two.prg
? "two"
DO THREE
%file three.prg
? "three"
%source
? "one"
DO TWO
? "four"
%rows
one
two
three
four
%ended finished 17
#a variable handed over to another file
%each 12
%files add.prg
%file add.prg
PARAMETERS Y
Y = Y + 1
%source
X = 1
DO ADD WITH X
? X
%rows
         2
%ended finished 12
#a procedure of the third file goes before the second file of its name
%each 6
%files p.prg more.prg
%file p.prg
? "file"
%file more.prg
PROCEDURE P
? "procedure"
%source
DO P
%rows
procedure
%ended finished 6
#of two procedures of a name the first is called
%each 6
%files one.prg two.prg
%file one.prg
PROCEDURE P
? "one"
%file two.prg
PROCEDURE P
? "two"
%source
DO P
%rows
one
%ended finished 6
#a faulty line of the second file
%files paid.prg
%file paid.prg
? 1
X = = 3
%source
DO PAID
%refused refused paid.prg line 2 Expression
#a faulty command of the second file
%files paid.prg
%file paid.prg
? 1
? Y
%source
DO PAID
%refused refused paid.prg line 2 Name
#a faulty command of a procedure in the third file
%files two.prg three.prg
%file two.prg
DO THIRD
%file three.prg
? 1
PROCEDURE THIRD

? "A" + 1
%source
DO TWO
%refused refused three.prg line 4 Kind
#no second file
%files two.prg
%refused refused two.prg Absent
#the second file is faulty and the third one isn't there
%files two.prg three.prg
%file two.prg
X = = 3
%refused refused two.prg line 1 Expression
"#;

pub const DECLARED: &str = r#"
%table CUST.DBF NAME C 10 0

%table BILL.DBF AMT N 5 2

%table WIDE.DBF A C 50 0,B C 50 0,D C 1 0

#a file without a fault
%declarations
TABLE CUST

* the customers' index
INDEX CUST ON CUST KEY upper(name)
TABLE WIDE
INDEX AB ON WIDE KEY A + UPPER(B)
INDEX D8 ON WIDE KEY D+D+D+D+D+D+D+D
%ended finished 1
#a key that is no field
%declarations
TABLE CUST
INDEX CI ON CUST KEY AMT
%refused refused MAIN.DCL line 2 Key
#a number's key
%declarations
TABLE BILL
INDEX BI ON BILL KEY AMT
%refused refused MAIN.DCL line 2 Key
#a key of 101 bytes
%declarations
TABLE WIDE
INDEX WI ON WIDE KEY A+B+D
%refused refused MAIN.DCL line 2 Key
#a key of nine fields
%declarations
TABLE WIDE
INDEX WI ON WIDE KEY D+D+D+D+D+D+D+D+D
%refused refused MAIN.DCL line 2 Key
#a key in small letters
%declarations
TABLE CUST
INDEX CI ON CUST KEY LOWER(NAME)
%refused refused MAIN.DCL line 2 Key
#another word
%declarations
TABLE CUST

* a table
TABEL BILL
%refused refused MAIN.DCL line 4 Word
#a table without a name
%declarations
TABLE
%refused refused MAIN.DCL line 1 Word
#an index without a key
%declarations
TABLE CUST
INDEX CI ON CUST
%refused refused MAIN.DCL line 2 Word
#a name in small letters
%declarations
TABLE cust
%refused refused MAIN.DCL line 1 Name
#a name of nine letters
%declarations
TABLE CUSTOMERS
%refused refused MAIN.DCL line 1 Name
#a name that begins with a figure
%declarations
TABLE 1CUST
%refused refused MAIN.DCL line 1 Name
#a work area's letter
%declarations
TABLE J
%refused refused MAIN.DCL line 1 Name
#the letter of variables
%declarations
TABLE M
%refused refused MAIN.DCL line 1 Name
#another letter, of a table that isn't there
%declarations
TABLE K
%refused refused MAIN.DCL line 1 Table
#a table declared twice
%declarations
TABLE CUST
TABLE CUST
%refused refused MAIN.DCL line 2 Name
#an index declared twice
%declarations
TABLE CUST
INDEX CI ON CUST KEY NAME
INDEX CI ON CUST KEY UPPER(NAME)
%refused refused MAIN.DCL line 3 Name
#an index before its table
%declarations
INDEX CI ON CUST KEY NAME
TABLE CUST
%refused refused MAIN.DCL line 1 Name
#a file that is no table
%declarations
TABLE CUST
TABLE BAD
%bytes BAD.DBF
03 01 02
%refused refused MAIN.DCL line 2 Table
#32 tables
%tables 32
%ended finished 1
#33 tables
%tables 33
%refused refused MAIN.DCL line 33 Limit
#64 indexes
%declarations
TABLE CUST
%indexes 64
%ended finished 1
#65 indexes
%declarations
TABLE CUST
%indexes 65
%refused refused MAIN.DCL line 66 Limit
#no declaration file
%absent
%refused refused MAIN.DCL Absent
"#;
