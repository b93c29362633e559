// Command files with their tables, and what comes of them. `each` says the budget up to which both machines run a case
// alike, `parts` that it runs in parts, `full again` that the table stays full, `lends` that its one index is open,
// `calls` how many calls of the device a run makes, `untold` what is told where a call of the device fails while it is
// compiled, `sorted` the record at which a run over sorted keys ends, and `original` an index that is saved
// as the one that other tests change byte by byte.
#![tactic(auto)]

pub const CASES: &str = r#"
#numbers
%each 19
%source
? 1/3, 2/3, -2/3
%rows
      0.33       0.67      -0.67
%ended finished 19
#a number that is too great
%each 11
%source
? 9999999999999999999 + 1
? 1.25 * 1.25
%rows
**********
    1.5625
%ended finished 11
#functions of numbers and texts
%each 44
%source
? STR(123.456,6,1), STR(12345,3), MOD(-7,3), ROUND(-1250,-2)
? STUFF("ABCDE",2,3,"x"), "AB  " - "C" + "."
%rows
 123.5 ***          2      -1300
AxE ABC  .
%ended finished 44
#texts compared
%each 24
%source
? "ABC" = "AB", "AB" = "ABC", "AB" = ""
SET EXACT ON
? "AB " = "AB"
%rows
.T. .F. .T.
.T.
%ended finished 24
#dates
%each 17
%source
? CTOD("02/29/88") + 366, DOW(CTOD("03/01/89"))
? CTOD("02/29/89")
%rows
03/01/89          4
  /  /
%ended finished 17
#a variable handed over
%each 12
%source
X = 1
DO P WITH X
? X
PROCEDURE P
PARAMETERS Y
Y = Y + 1
%rows
         2
%ended finished 12
#a value handed over
%each 17
%source
X = 1
DO P WITH X + 0
? X
PROCEDURE P
PARAMETERS Y
Y = Y + 1
%rows
         1
%ended finished 17
#a variable hidden
%each 11
%source
X = 1
DO Q
? X
PROCEDURE Q
PRIVATE X
X = 7
%rows
         1
%ended finished 11
#dates with the century and without it
%each 20
%source
SET CENTURY ON
? CTOD("02/29/88") + 366, LEN(DTOC(CTOD("")))
SET CENTURY OFF
? CTOD("12/31/2001")
%rows
03/01/1989         10
12/31/01
%ended finished 20
#a line behind the end
%each 10
%parts
%source
ACCEPT "Name? " TO N
? LEN(N)
%rows
Name?
         0
%ended finished 10
#a field that is typed
%typed
12x
%each 13
%parts
%source
X = 5
@ 2,0 GET X
READ
? X
%rows


         5
         5
%ended finished 13
#26 rows on a screen of 25, which is cleared then
%each 428
%source
I = 1
DO WHILE I <= 26
? STR(I,2)
I = I + 1
ENDDO
CLEAR
? "Z"
%rows
 1
 2
 3
 4
 5
 6
 7
 8
 9
10
11
12
13
14
15
16
17
18
19
20
21
22
23
24
25
26
Z
%ended finished 428
#a faulty command file
%refused refused MAIN.PRG line 1 Expression
%source
X = = 3
#the first customer
%declarations
TABLE CUST
%table CUST.DBF NAME C 10 0
%saved CUST.DBF NAME C 10 0
 Ann       |
%length 77
%each 12
%calls 3
%source
USE CUST
APPEND BLANK
REPLACE NAME WITH "Ann"
? RECNO(), EOF()
%rows
         1 .F.
%ended finished 12
%list CUST.DBF
NAME C 10 0
records 1
      1   Ann       
#a number that doesn't fit its field
%declarations
TABLE BILL
%table BILL.DBF AMT N 5 2
 10.00|
%each 14
%sorted 1
%source
USE BILL
REPLACE AMT WITH 123.456
? AMT, AMT > 99
%rows
********** .T.
%ended finished 14
%list BILL.DBF
AMT N 5 2
records 1
      1   **********
#a third record where two are the limit
%declarations
TABLE T
%table T.DBF K C 1 0
%each 4
%full again
%limit 2
%sorted 2
%source
USE T
APPEND BLANK
APPEND BLANK
APPEND BLANK
%ended full T 3
%list T.DBF
K C 1 0
records 2
      1    
      2    
#a record is removed, and then all
%declarations
TABLE T
INDEX KI ON T KEY K
%table T.DBF K C 1 0
 A| B| C|
%each 37
%parts
%sorted 1
%source
USE T
INDEX ON K TO KI
GO 2
DELETE
PACK
? RECCOUNT(), RECNO()
REINDEX
ZAP
? RECCOUNT(), EOF()
%rows
         2          1
         0 .T.
%ended finished 37
%list T.DBF
K C 1 0
records 0
%keys KI.NDX
K 1
#a filter whose variable is released
%declarations
TABLE CUST2
%table CUST2.DBF CITY C 9 0
%refused refused MAIN.PRG line 5 Filter
%source
TOWN = "OSLO"
USE CUST2
SET FILTER TO CITY = TOWN
RELEASE TOWN
SKIP
#the first of thirty equal keys whose record isn't marked
%declarations
TABLE P
INDEX PN ON P KEY NAME
%table P.DBF NAME C 10 0
*SMITH     |*SMITH     | SMITH     | SMITH     | SMITH     | SMITH     | SMITH     | SMITH     | SMITH     | SMITH     |
 SMITH     | SMITH     | SMITH     | SMITH     | SMITH     | SMITH     | SMITH     | SMITH     | SMITH     | SMITH     |
 SMITH     | SMITH     | SMITH     | SMITH     | SMITH     | SMITH     | SMITH     | SMITH     | SMITH     | SMITH     |
%each 48
%parts
%sorted 3
%source
USE P
INDEX ON NAME TO PN
SET DELETED ON
SEEK "SM"
? RECNO(), FOUND()
%rows
         3 .T.
%ended finished 48
#a scan that lowers each key that it meets
%declarations
TABLE T
INDEX KI ON T KEY K
%table T.DBF K C 5 0
   998|   999|
%each 200
%calls 5
%sorted 2
%budget 200
%source
N = 998
USE T
INDEX ON K TO KI
SCAN
N = N - 1
REPLACE K WITH STR(N,5)
ENDSCAN
%ended spent 199
%list T.DBF
K C 5 0
records 2
      1     987
      2     986
%keys KI.NDX
K 5
      2   986
      1   987
#a key is changed under the order of its index
%declarations
TABLE T
INDEX KI ON T KEY K
%table T.DBF K C 1 0
 A| B| C|
%each 13
%sorted 1
%source
USE T
INDEX ON K TO KI
REPLACE K WITH "Z"
? RECNO()
%rows
         1
%ended finished 13
%list T.DBF
K C 1 0
records 3
      1   Z
      2   B
      3   C
%keys KI.NDX
K 1
      2 B
      3 C
      1 Z
#a key is changed while its index is closed
%declarations
TABLE T
INDEX KI ON T KEY K
%table T.DBF K C 1 0
 A| B| C|
%each 23
%parts
%lends
%sorted 1
%calls 5
%untold disk MAIN.DCL|disk T.DBF|disk MAIN.PRG|disk MAIN.XBC
%source
USE T
INDEX ON K TO KI
USE T
REPLACE K WITH "Z"
USE T INDEX KI
SEEK "Z"
? FOUND()
%rows
.T.
%ended finished 23
%original KI.NDX
%keys KI.NDX
K 1
      2 B
      3 C
      1 Z
#a faulty index
%declarations
TABLE T
INDEX KI ON T KEY K
%table T.DBF K C 1 0
 A| B| C|
%index KI.NDX
01 00 00 00 01 00 00 00 00 00 00 00 4d 00 00 00 01 00 00 00
%each 6
%calls 5
%source
USE T INDEX KI
%ended finished 6
%keys KI.NDX
K 1
      1 A
      2 B
      3 C
#filters read what is there at each move
%declarations
TABLE T
%table T.DBF K C 1 0
 A| B| C|
%each 64
%source
USE T
X = 2
SET FILTER TO RECNO() >= X .AND. RECNO() < RECCOUNT() + 1
GO TOP
? RECNO(), K
X = 3
GO TOP
? RECNO(), K
SET FILTER TO .NOT. DELETED() .AND. K = "B"
GO TOP
? RECNO(), EOF()
DELETE
GO TOP
? RECNO(), EOF()
SET FILTER TO DATE() > CTOD("01/01/84") .AND. K > "A"
GO BOTTOM
? RECNO()
SET FILTER TO
GO TOP
? RECNO()
%rows
         2 B
         3 C
         2 .F.
         4 .T.
         3
         1
%ended finished 64
#filters that make texts
%declarations
TABLE T
%table T.DBF K C 3 0,N N 2 0
 ab  1| Cd  2| ef 12|
%each 70
%source
USE T
SET FILTER TO UPPER(K) = "CD"
GO TOP
? RECNO()
SET FILTER TO LEFT(LOWER(K), 1) = "c"
GO TOP
? RECNO()
SET FILTER TO SUBSTR(STR(N, 4), 3, 2) = "12"
GO TOP
? RECNO()
SET FILTER TO TRIM(K) + "x" = "efx"
GO TOP
? RECNO()
SET FILTER TO REPLICATE(LEFT(K, 1), N) = "eee"
GO TOP
? RECNO()
SET FILTER TO CHR(N + 96) = "b"
GO TOP
? RECNO()
SET FILTER TO ISUPPER(LEFT(K, 1) + "a")
GO TOP
? RECNO()
SET FILTER TO N > 1 .AND. STUFF(K, 1, 1, "z") = "zf"
GO TOP
? RECNO()
SET FILTER TO IIF(N > 1, "q", "r") = "q"
GO TOP
? RECNO()
%rows
         2
         2
         3
         3
         3
         2
         2
         3
         2
%ended finished 70
#a third table where one of two is open
%declarations
TABLE AA
TABLE BB
TABLE CC
%table AA.DBF K C 1 0
 A|
%table BB.DBF K C 1 0
 A|
%table CC.DBF K C 1 0
 A|
%each 12
%source
L = .T.
IF L
USE AA
ELSE
USE BB
ENDIF
USE CC
SKIP
%ended finished 12
#a filter on the text of a date
%declarations
TABLE T
%table T.DBF D D 8 0
 19850101| 19850102|
%each 28
%source
USE T
SET FILTER TO DTOC(D) = "01/02/1985"
GO TOP
? EOF()
SET CENTURY ON
GO TOP
? EOF(), RECNO()
SET CENTURY OFF
GO TOP
? EOF()
%rows
.T.
.F.          2
.T.
%ended finished 28
#comparisons joined
%each 425
%source
X = 3
? X > 2 .AND. X < 5, X > 3 .AND. X < 5, X > 3 .OR. X < 5, X > 3 .OR. X < 2
? X > 2 .AND. X <> 3, X > 2 .AND. X >= 3, X > 3 .OR. X <= 3, X > 3 .OR. X <> 3
? X > 2 .AND. X = 3, X = 3 .AND. .NOT. X > 3, X < 3 .OR. X = 4
T = "AB"
? T = "A" .AND. X > 2
N = 0
DO WHILE N < 9 .AND. X >= 0
  IF N > 2 .AND. MOD(N, 4) <> 3 .OR. N = 1
    X = X + 1
  ENDIF
  N = N + 1
ENDDO
? X, N
%rows
.T. .F. .T. .F.
.F. .T. .T. .F.
.T. .T. .F.
.T.
         8          9
%ended finished 425
#quotients cut
%each 90
%source
X = 1999
Y = 200
? INT(X / Y), INT(X / 200), INT(X / 16), INT((0 - X) / 16), INT(X / 2.5)
N = 70000
DO WHILE N > 1
  N = INT(N / 16)
ENDDO
? N
%rows
        10         10        124       -124        799
         1
%ended finished 90
"#;
