// Calls of functions.

use crate::values::spelled::{first_wrong, result_of, result_of_values, value_of};
use xvalue::apply::write_text;
use xvalue::{
    Arguments, Arithmetic, Fun, Kind, Lent, Settings, Text, TextFun, Value, append, eq_text,
    less_text, signature, text_from, write_over,
};

/// Calls a row: `E` where EXACT is on, `C` where CENTURY is, else `-`; the number and the name of a function; and its
/// calls with `;` between them, each its arguments with `|` between them, `=`, and its result as text.
const CALLS: &str = "\
- 1 Add 9999999999999999999|1=**********;-9999999999999999999|1=-9999999999999999998
- 1 Add 1.50|-1.5=0.00;0.000000000000001|1=1.000000000000001
- 1 Add 10000|0.000000000000001=**********;100000|0.000000000000001=**********;**|1=**********;1.50|2=3.50
- 2 Sub 9999999999999999999|1=9999999999999999998;-9999999999999999999|1=**********
- 2 Sub 1.50|-1.5=3.00;0.000000000000001|1=-0.999999999999999
- 2 Sub 10000|0.000000000000001=9999.999999999999999;**|1=**********;1|1.5=-0.5
- 3 Mul 1.25|1.25=1.5625;0.00000001|0.00000005=0.000000000000001
- 3 Mul 0.00000001|-0.00000005=-0.000000000000001
- 3 Mul 0.00000001|0.00000004=0.000000000000000
- 3 Mul 9999999999999999999|9999999999999999999=**********;-3|0.0=0.0;2|?=**********
- 3 Mul 4000000000|3000000000=**********;2500000000|4000000000=**********
- 3 Mul 2499999999|4000000000=9999999996000000000
- 4 Div 1|3=0.33;2|3=0.67;-2|3=-0.67;1|0.200=5.000
- 4 Div 9999999999999999999|0.000000000000001=**********
- 4 Div 0.000000000000001|9999999999999999999=0.000000000000000
- 4 Div 0.000000000000001|0.000000000000003=0.333333333333333;1|0=**********
- 4 Div 0|0.00=**********
- 49 Mod 7|-3=-2;-7|3=2;-7|-3=-1;6|-3=0;7.5|2=1.5;-0.000000000000001|100000=**********
- 49 Mod 1|0=**********
- 50 Round -1250|-2=-1300;1.5|3=1.500;12.345|2=12.35;-0.5|0=-1;-0.4|0=0
- 50 Round 10000|15=**********;5000000000000000000|-99=5000000000000000000
- 50 Round 499999999999999999|-18=0;9500000000000000000|-19=**********;x|2=**********
- 50 Round 2.5|?=3
- 51 Max 1.0|1=1.0;1|?=**********;1|2=2
- 52 Min 1|1.0=1;1|?=1;1.0|1=1.0;2|1=1
- 5 Neg 1.50=-1.50;0=0;2.90=-2.90;0.0=0.0;*=**********
- 47 Abs -0.5=0.5;-2.9=2.9
- 48 Int -1.9=-1;?=**********;-2.9=-2;-0.9=0
- 6 NumberEq 1.0|1=.T.;?|?=.T.;*|*=.T.
- 7 NumberLess -1|0.5=.T.;1|1.0=.F.;-1.5|-1.25=.T.;1|*=.T.
- 8 NumberGreater ?|9999999999999999999=.T.;1|2=.F.
- 43 Str 123.456|5|2=*****;12.345|5|2=12.35;-1|5|2=-1.00;0.5|5|0=    1;-0.4|5|0=    0
- 43 Str *|5|0=*****;0.123|5|4=*****;123.456|6|1= 123.5;12345|3|0=***
- 43 Str 1.5|10|0=         2;1|?|0=;1|-1|0=;?|4|2=****
- 43 Str 10000|30|15=******************************
- 36 Space 3=   ;-3=;?=
- 41 Chr 65=A;256=;-1=;?=\0
- 9 TextEq ABC|AB=.T.;AB|ABC=.F.;AB|=.T.;AB |AB=.T.
- 11 TextGreater ABC|AB=.T.;AB|AB  =.F.
- 10 TextLess AB|ABC=.T.;AB  |AB=.F.;AB\t|AB=.T.;Z|a=.T.
- 20 In |ABC=.T.;BC|ABC=.T.;AC|ABC=.F.;A|=.F.
- 18 Join AB  |C=AB  C
- 19 JoinMoved AB  |C=ABC  ;  | =   
- 38 At C|ABCABC=3;ABCD|ABC=0;|ABC=1;|=1
- 32 Trim  A B  = A B;   =
- 33 Ltrim   A B =A B 
- 34 Upper aZ1\u{e9}=AZ1\u{e9}
- 35 Lower aZ1[=az1[
- 28 Len ABC=3;=0
- 40 Asc AB=65;=0
- 44 IsAlpha z1=.T.;1z=.F.;=.F.
- 45 IsUpper Zz=.T.;zZ=.F.
- 46 IsLower zZ=.T.;=.F.
- 42 Val 12.5.3=12.5;-.5=-0.5;  7.x=7;-=0;.=0;- 1=0;x1=0
- 42 Val 12345.000000000000000=**********;7.=7;-.=0;=0;abc=0;+3e5=3
- 42 Val 0.1234567890123456=0.123456789012346
- 29 Substr ABC|0|2=;ABC|1|2=AB;ABC|2|254=BC;ABC|4|1=;ABC|2|-1=;ABC|2.9|1=B
- 30 Left ABC|2=AB;ABC|9=ABC;ABC|-1=
- 31 Right ABC|2=BC;ABC|9=ABC;ABC|0=
- 37 Replicate AB|3=ABABAB;AB|0=;|9999999999999999999=
- 39 Stuff ABCDE|2|3|x=AxE;ABC|9|1|x=ABCx;ABC|0|1|x=xBC;ABC|2|-1|xy=AxyBC;ABC|1|99|=
- 21 DateAdd 02/29/88|366=03/01/89;12/31/9999|1=  /  /  ;12/31/9999|-0.9=12/31/99
- 21 DateAdd 01/01/0001|-1=  /  /  ;01/01/0001|3652058=12/31/99;01/01/0001|3652059=  /  /  
- 21 DateAdd 01/01/85|9999999999999999999=  /  /  ;01/01/85|?=  /  /  ;|1=  /  /  
- 22 DateSub 03/01/1900|1=02/28/00;03/01/2000|1.9=02/29/00;01/01/0001|1=  /  /  
- 22 DateSub 01/01/85|?=  /  /  
- 12 DateEq 01/02/85|1/2/1985=.T.;01/02/85|01/02/86=.F.;|=.T.;|01/02/85=.F.
- 13 DateLess |01/01/0001=.T.;|=.F.;12/31/84|01/01/85=.T.
- 14 DateGreater 01/01/85|=.T.;01/01/85|01/01/85=.F.
- 23 DateDiff 03/01/88|02/28/88=2;01/01/85|12/31/85=-364;|12/31/85=**********
- 23 DateDiff 12/31/85|=**********
- 55 Day 03/01/89=1;=0;12/31/00=31;1/2/0007=2
- 56 Month 03/01/89=3;=0;12/31/00=12;1/2/0007=1
- 57 Year 03/01/89=1989;=0;02/29/88=1988;12/31/00=1900;1/2/0007=7;12/31/9999=9999
- 58 Dow 03/01/89=4;03/05/89=1;=0
- 59 Cdow 03/01/89=Wednesday;01/01/0001=Monday;03/05/89=Sunday;=
- 60 Cmonth 09/30/89=September;12/31/9999=December;=
- 54 Dtoc 1/2/0007=01/02/07;=  /  /  
- 53 Ctod 02/29/88=02/29/88;  1/2/85 =01/02/85;02/29/89=  /  /  ;02/29/1900=  /  /  
- 53 Ctod 13/01/85=  /  /  ;00/01/85=  /  /  ;01/32/85=  /  /  ;01/01/003=  /  /  
- 53 Ctod 01/01/0000=  /  /  ;01/01=  /  /  ;01/01/85/=  /  /  ;1 /2/85=  /  /  
- 53 Ctod 001/2/85=  /  /  ;/2/85=  /  /  ;  /  /  =  /  /  ;=  /  /  ;01-02-85=  /  /  
- 53 Ctod +1/2/85=  /  /  
- 24 IifNumber T|1|2=1;F|1|2=2
- 25 IifText T|A|B=A;F|A|B=B
- 26 IifDate T|01/02/85|03/04/86=01/02/85;F|01/02/85|03/04/86=03/04/86
- 27 IifLogical T|F|T=.F.;F|F|T=.T.
- 15 Not T=.F.;F=.T.
- 16 And T|T=.T.;T|F=.F.;F|T=.F.;F|F=.F.
- 17 Or T|T=.T.;T|F=.T.;F|T=.T.;F|F=.F.
E 9 TextEq AB |AB=.T.;ABC|AB=.F.;AB|=.F.; AB|AB=.F.
E 11 TextGreater ABC|AB=.T.
E 10 TextLess AB|ABC=.T.
C 21 DateAdd 02/29/88|366=03/01/1989;12/31/9999|1=  /  /    
C 54 Dtoc 1/2/0007=01/02/0007;12/31/9999=12/31/9999;=  /  /    
C 53 Ctod 02/29/88=02/29/1988;12/31/2001=12/31/2001;x=  /  /    
C 57 Year 03/01/89=1989
";

#[test]
fn calls(rt: HostRuntime) {
    assert_eq!(rt; first_wrong(CALLS), None);
    assert!(rt; eq_text(b"AB  ", b"AB", true) && less_text(b"AB", b"AC"));
}

#[test]
fn appends_as_much_as_fits(rt: HostRuntime) {
    let mut text = Text::new();
    append(&mut text, b"AB");
    append(&mut text, b"C");
    assert!(rt; text.as_slice() == b"ABC".as_slice());
    append(
        &mut text,
        result_of(Settings::off(), Fun::ToText(TextFun::Replicate), "x|254").as_slice(),
    );
    assert!(rt; text.as_slice().len() == 254 && text.as_slice().ends_with(b"x"));
}

/// Whether a result is as long as texts may be, and ends so.
fn is_cut_after(fun: Fun, values: &[Value], end: &str) -> bool {
    let result = result_of_values(Settings::off(), fun, values);
    result.len() == 254 && result.as_slice().ends_with(end.as_bytes())
}

fn repeated(spelled: &str) -> Value {
    Value::Text(result_of(Settings::off(), Fun::ToText(TextFun::Replicate), spelled))
}

fn number(spelled: &str) -> Value {
    value_of(Kind::Number, spelled)
}

fn text(spelled: &str) -> Value {
    value_of(Kind::Text, spelled)
}

#[test]
fn writes_over_another_text(rt: HostRuntime) {
    let mut text = text_from(b"a longer text");
    let given = [text_from(b"Ann")];
    let arguments = Arguments {
        numbers: &[],
        texts: &given,
        dates: &[],
        truths: &[],
    };
    write_text(TextFun::Upper, Settings::off(), &arguments, &mut text);
    assert!(rt; text.as_slice() == b"ANN".as_slice());
    write_over(b"Bo", &mut text);
    assert!(rt; text.as_slice() == b"Bo".as_slice());
}

/// Whether the value that is spelled so is the same where it was lent and is owned again.
fn is_owned_alike(kind: Kind, spelled: &str) -> bool {
    let value = value_of(kind, spelled);
    let owned = Lent::of(&value).owned();
    owned.kind() == kind
        && owned.shown(Settings::off()).as_slice() == value.shown(Settings::off()).as_slice()
}

#[test]
fn owns_what_was_lent(rt: HostRuntime) {
    assert!(rt; is_owned_alike(Kind::Number, "7.50") && is_owned_alike(Kind::Text, "Ann"));
    assert!(rt; is_owned_alike(Kind::Date, "02/29/88") && is_owned_alike(Kind::Logical, "T"));
}

#[test]
fn cuts_texts(rt: HostRuntime) {
    let moved = [repeated("A|250"), text("    ")];
    let moved = Value::Text(result_of_values(Settings::off(), Fun::ToText(TextFun::Join), &moved));
    assert!(rt;
        is_cut_after(
            Fun::ToText(TextFun::Replicate),
            &[text("ABC"), number("100")],
            "BCAB"
        )
    );
    assert!(rt;
        is_cut_after(
            Fun::ToText(TextFun::Space),
            &[number("9999999999999999999")],
            "  "
        )
    );
    assert!(rt;
        is_cut_after(
            Fun::ToText(TextFun::Join),
            &[repeated("ABC|100"), text("Z")],
            "BCAB"
        )
    );
    assert!(rt;
        is_cut_after(
            Fun::ToText(TextFun::JoinMoved),
            &[moved, text("BCDEF")],
            "ABCDE"
        )
    );
    assert!(rt;
        is_cut_after(
            Fun::ToText(TextFun::Str),
            &[number("7"), number("300"), number("0")],
            " 7"
        )
    );
}

#[test]
fn cuts_what_is_put_into_texts(rt: HostRuntime) {
    let values = [repeated("ABC|100"), number("254"), number("0"), text("XYZ")];
    assert!(rt; is_cut_after(Fun::ToText(TextFun::Stuff), &values, "BCAX"));
    let byte = result_of(Settings::off(), Fun::ToText(TextFun::Chr), "255.9");
    assert_eq!(rt; byte.as_slice().first().copied(), Some(255));
}

#[test]
fn knows_its_functions(rt: HostRuntime) {
    for (number, fun) in [
        (0, None),
        (4, Some(Fun::OfTwo(Arithmetic::Div))),
        (60, Some(Fun::ToText(TextFun::Cmonth))),
        (61, None),
    ] {
        assert!(rt; Fun::numbered(number) == fun);
    }
    assert_eq!(rt; Fun::ToText(TextFun::Stuff).number(), 39);
    let (takes, gives) = signature(Fun::ToText(TextFun::Stuff));
    let kinds = [Kind::Text, Kind::Number, Kind::Number, Kind::Text];
    assert!(rt; takes == kinds.as_slice() && gives == Kind::Text);
}
