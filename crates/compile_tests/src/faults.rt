// Each fault, alone and before a later one; `files line kind`, the files counted from 0.

/// Faults of names, kinds and values.
pub(crate) const VALUES: &str = "\
     ? X|0 1 Name\n\
     RELEASE X|0 1 Name\n\
     CLEAR^? X + 1 + (1 = 'A')|0 2 Name\n\
     ? 1 + 'A' + X|0 1 Kind\n\
     ? (1 + 'A') + X|0 1 Kind\n\
     ? 1 + 'A'|0 1 Kind\n\
     ? .T. = .T.|0 1 Kind\n\
     ? -'A'|0 1 Kind\n\
     ? .NOT. 1|0 1 Kind\n\
     ? +'A'|0 1 Kind\n\
     ? LEN(1)|0 1 Kind\n\
     ? IIF(1, 2, 3)|0 1 Kind\n\
     ? IIF(.T., 2, 'A')|0 1 Kind\n\
     ? STR(1, 'A')|0 1 Kind\n\
     IF 1^ENDIF|0 1 Kind\n\
     DO WHILE 'A'^ENDDO|0 1 Kind\n\
     DO CASE^CASE .T.^CASE 1^ENDCASE|0 3 Kind\n\
     @ 'A',1 SAY 1|0 1 Kind\n\
     @ 1,'A' SAY 1|0 1 Kind\n\
     @ 'A',1 SAY X|0 1 Name\n\
     ACCEPT 1 TO X|0 1 Kind\n\
     WAIT 1|0 1 Kind\n\
     X = 1^RELEASE X^? X|0 3 Unset\n\
     IF .T.^X = 1^ENDIF^? X|0 4 Unset\n\
     IF .T.^X = 1^ELSE^X = 'A'^ENDIF^? X|0 6 Unset\n\
     IF .T.^X = 1^ELSE^X = 2^ENDIF^? X^? Y|0 7 Name\n\
     X = 1^DO WHILE .T.^? X + 1^X = 'A'^ENDDO|0 3 Unset\n\
     X = 1^@ 1,1 GET Y^READ|0 2 Name\n\
     USE AA^GO 'A'|0 2 Kind\n\
     USE AA^SKIP 'A'|0 2 Kind\n\
     USE AA INDEX AK^SEEK 1|0 2 Kind\n\
     USE AA^REPLACE N WITH 'A'|0 2 Kind\n\
     USE AA^REPLACE X WITH 'A'|0 2 Name\n\
     USE AA^REPLACE X WITH Y|0 2 Name\n\
     USE AA^SCAN FOR 1^ENDSCAN|0 2 Kind\n\
     USE AA^SET FILTER TO 1|0 2 Kind\n\
     USE AA^SET FILTER TO X|0 2 Name\n\
     STORE X TO Y|0 1 Name\n\
     X = X + 1|0 1 Name\n\
    ";

/// Faults of work areas.
pub(crate) const AREAS: &str = "\
     SKIP|0 1 ClosedArea\n\
     GO TOP|0 1 ClosedArea\n\
     GO X|0 1 Name\n\
     SEEK 'A'|0 1 ClosedArea\n\
     APPEND BLANK|0 1 ClosedArea\n\
     REPLACE K WITH 'A'|0 1 ClosedArea\n\
     DELETE|0 1 ClosedArea\n\
     RECALL|0 1 ClosedArea\n\
     PACK|0 1 ClosedArea\n\
     ZAP|0 1 ClosedArea\n\
     REINDEX|0 1 ClosedArea\n\
     INDEX ON K TO AK|0 1 ClosedArea\n\
     INDEX ON K TO XX|0 1 Name\n\
     SET ORDER TO 0|0 1 ClosedArea\n\
     SET FILTER TO X|0 1 ClosedArea\n\
     SCAN^ENDSCAN|0 1 ClosedArea\n\
     ? RECNO()|0 1 ClosedArea\n\
     ? B->K|0 1 ClosedArea\n\
     ? AA->K|0 1 Name\n\
     ? XX->K|0 1 Name\n\
     USE AA^? AA->X|0 2 Name\n\
     USE AA^? A->X|0 2 Name\n\
     SELECT AA|0 1 Name\n\
     USE XX|0 1 Name\n\
     USE AA INDEX XX|0 1 Name\n\
     USE AA INDEX BK|0 1 Index\n\
     USE AA INDEX AK, AK|0 1 Index\n\
     USE AA^SELECT 2^USE AA|0 3 OpenTwice\n\
     USE AA^USE AA^SELECT 2^USE BB INDEX AK|0 4 Index\n\
     USE AA INDEX AK, AU^SET ORDER TO 3|0 2 NoOrder\n\
     USE AA^SET ORDER TO 1|0 2 NoOrder\n\
     USE AA^SEEK 'A'|0 2 NoOrder\n\
     USE AA INDEX AK^SET ORDER TO 0^SEEK 'A'|0 3 NoOrder\n\
     USE AA^INDEX ON UPPER(K) TO AK|0 2 Index\n\
     USE AA^INDEX ON K TO AU|0 2 Index\n\
     USE AA^INDEX ON (K) TO AK|0 2 Index\n\
     USE AA^INDEX ON A->K TO AK|0 2 Index\n\
     USE AA^INDEX ON K + P TO AP|0 2 Index\n\
     USE AA^INDEX ON K TO BK|0 2 Index\n\
     USE AA^INDEX ON K + K TO AK|0 2 Index\n\
     USE AA^SET FILTER TO EOF()|0 2 Filter\n\
     USE AA^SET FILTER TO BOF()|0 2 Filter\n\
     USE AA^SET FILTER TO FOUND()|0 2 Filter\n\
     USE AA^SELECT 2^USE BB^SET FILTER TO A->L|0 4 Filter\n\
     USE AA^X = 'A'^SET FILTER TO K = X^RELEASE X^SKIP|0 5 Filter\n\
     USE AA^X = 'A'^SET FILTER TO K = X^X = 1^GO TOP|0 5 Filter\n\
     USE AA^X = 'A'^SET FILTER TO K = X^RELEASE X^DELETE^PACK|0 6 Filter\n\
     USE AA^X = 'A'^SET FILTER TO K = X^SCAN^RELEASE X^ENDSCAN|0 6 Filter\n\
     USE AA^X = 'A'^SET FILTER TO K = X^RELEASE X^INDEX ON K TO AK|0 5 Filter\n\
     USE AA^X = 'A'^SET FILTER TO K = X^RELEASE X^USE BB^SKIP^SKIP Y|0 7 Name\n\
    ";

/// Ways that meet, work areas of which nothing is known, and GETs without READ.
pub(crate) const WAYS: &str = "\
     X = .T.^IF X^USE AA^ELSE^USE BB^ENDIF^SKIP|0 7 ClosedArea\n\
     IF .T.^SELECT 2^ENDIF^CLEAR|0 3 Merge\n\
     IF .T.^SELECT 2^ELSE^SELECT 3^ENDIF^? X|0 5 Merge\n\
     DO CASE^CASE .T.^SELECT 2^CASE .T.^SELECT 3^ENDCASE|0 6 Merge\n\
     DO WHILE .T.^SELECT 2^ENDDO|0 3 Merge\n\
     DO WHILE .T.^IF .F.^SELECT 2^EXIT^ENDIF^ENDDO|0 6 Merge\n\
     DO WHILE .T.^IF .F.^SELECT 2^LOOP^ENDIF^? X^ENDDO|0 6 Name\n\
     IF .T.^USE AA^ENDIF^? K|0 4 ClosedArea\n\
     IF .T.^USE AA^ENDIF^? X|0 4 Name\n\
     IF .T.^USE AA^ENDIF^? AA->K|0 4 ClosedArea\n\
     IF .T.^USE AA^ENDIF^? CC->K|0 4 ClosedArea\n\
     IF .T.^USE AA^ENDIF^SELECT AA|0 4 ClosedArea\n\
     IF .T.^USE AA^ENDIF^? A->K|0 4 ClosedArea\n\
     IF .T.^USE AA^ENDIF^? XX->K|0 4 Name\n\
     IF .T.^USE AA^ENDIF^SELECT 2^USE BB|0 5 OpenTwice\n\
     IF .T.^USE AA^ENDIF^USE BB^SKIP^? X|0 6 Name\n\
     USE AA^DO WHILE .T.^SKIP^USE^ENDDO|0 3 ClosedArea\n\
     X = 1^@ 1,1 GET X|0 2 Get\n\
     X = 1^@ 1,1 GET X^@ 2,1 GET X^@ 3,1 SAY 1|0 3 Get\n\
     X = 1^@ 1,1 GET X^Y = 2^READ|0 3 Get\n\
     X = 1^@ 1,1 GET X^? Y^READ|0 3 Name\n\
     X = 1^@ 1,1 GET X^IF .T.^ENDIF^READ|0 3 Get\n\
     X = 1^IF .T.^@ 1,1 GET X^ENDIF^READ|0 4 Get\n\
     X = 1^IF .T.^@ 1,1 GET X^ELSE^ENDIF^READ|0 4 Get\n\
     X = 1^DO CASE^CASE .T.^@ 1,1 GET X^OTHERWISE^ENDCASE|0 5 Get\n\
     X = 1^DO CASE^CASE .T.^@ 1,1 GET X^CASE .F.^ENDCASE|0 5 Get\n\
     X = 1^DO WHILE .T.^@ 1,1 GET X^LOOP^ENDDO|0 4 Get\n\
     X = 1^DO WHILE .T.^@ 1,1 GET X^ENDDO|0 4 Get\n\
     X = 1^@ 1,1 GET X^QUIT|0 3 Get\n\
     X = 1^@ 1,1 GET X^RETURN|0 3 Get\n\
     X = 1^@ 1,1 GET X^DO P^PROCEDURE P|0 3 Get\n\
     USE AA^X = 1^@ 1,1 GET X^SCAN^ENDSCAN|0 4 Get\n\
     PARAMETERS X|0 1 Parameters\n\
    ";
