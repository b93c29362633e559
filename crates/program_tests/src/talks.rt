// Conversations and what comes of them. Each line that is typed has `|` behind it. `part` says what the run goes on for
// before the operator is told again, `room` how many lines the journal takes, `kept` what it holds at the end, and
// `screens` how many screens the operator sees.
#![tactic(auto)]

/// A customer of the name that is typed, and a second line of which only the length is printed; and what else is asked.
pub const TALKS: &str = r#"
%declarations
TABLE CUST
%table CUST.DBF NAME C 10 0
%source
USE CUST
ACCEPT "Name? " TO N
APPEND BLANK
REPLACE NAME WITH N
ACCEPT "More? " TO M
? LEN(M)
#prints and saves what a run over all lines of the journal does
%lines Ann|much|
%rows
Name?
More?
         4
%told finished %screens 3%kept
Ann
much
%list CUST.DBF
NAME C 10 0
records 1
      1   Ann       
#begins behind the first line
%handed
Ann
%lines much|
%rows
Name?
More?
         4
%told finished %screens 2%kept
Ann
much
%list CUST.DBF
NAME C 10 0
records 1
      1   Ann       
#goes on step by step
%part 0%lines Ann|much|
%rows
Name?
More?
         4
%told finished %screens 3%kept
Ann
much
%list CUST.DBF
NAME C 10 0
records 1
      1   Ann       
#each line behind the end of the input is empty
%source
ACCEPT "Name? " TO N
ACCEPT TO N
ACCEPT TO M
? LEN(N)
%rows
Name?


         0
%told finished 1%screens 4
%list CUST.DBF
NAME C 10 0
records 0
#the same step by step
%part 0%source
ACCEPT "Name? " TO N
ACCEPT TO N
ACCEPT TO M
? LEN(N)
%rows
Name?


         0
%told finished 1%screens 4
%list CUST.DBF
NAME C 10 0
records 0
#the operator fails: nothing is saved, and the lines before are kept
%fails%lines Ann|
%told operator%screens 2%kept
Ann
%list CUST.DBF
NAME C 10 0
records 0
#memory is refused at the operator: the same, for another reason
%starves%lines Ann|
%told memory%screens 2%kept
Ann
%list CUST.DBF
NAME C 10 0
records 0
#the journal fails
%room 0%lines Ann|
%told journal%screens 1
%list CUST.DBF
NAME C 10 0
records 0
#a line holds LF
%lines An
n|
%told line%screens 1
%list CUST.DBF
NAME C 10 0
records 0
#the journal ends in half a line
%handed
Ann%told handed%kept
Ann%screens 0
%list CUST.DBF
NAME C 10 0
records 0
#whether the budget is spent is judged before a line is asked for
%budget 1%source
ACCEPT "Name? " TO N
%lines Ann|
%told spent 1%screens 1
%list CUST.DBF
NAME C 10 0
records 0
#the operator of a rehearsal fails
%rehearsed%fails%lines Ann|
%told operator%screens 2%kept
Ann
%list CUST.DBF
NAME C 10 0
records 0
#memory is refused at the operator of a rehearsal
%rehearsed%starves%lines Ann|
%told memory%screens 2%kept
Ann
%list CUST.DBF
NAME C 10 0
records 0
#the journal of a rehearsal fails
%rehearsed%room 0%lines Ann|
%told journal%screens 1
%list CUST.DBF
NAME C 10 0
records 0
#the journal of a rehearsal ends in half a line
%rehearsed%handed
Ann%told handed%kept
Ann%screens 0
%list CUST.DBF
NAME C 10 0
records 0
#a rehearsal saves nothing, and tells what would be saved
%rehearsed%lines Ann|much|
%rows
Name?
More?
         4
%told CUST 0 -> 1 records, 1 added
%screens 3%kept
Ann
much
%list CUST.DBF
NAME C 10 0
records 0
"#;
