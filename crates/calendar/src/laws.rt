// What follows from the definitions of days and dates, for a reader who wants to trust them, and for the crates above.
// Each function does nothing: its contract is the law.
#![tactic(auto)]

ghost use Rattle.std.specs.Prelude.{◌≡◌, ℤ, ◌+ℤ◌, ◌<ℤ◌, ◌↔◌, ◌⊎◌, true, Option, Some};
ghost use Rattle.calendar.specs.declared.day.DayParts.{DayParts as Parts};
ghost use Rattle.calendar.specs.Days.{IsDay, HasDay};
ghost use Rattle.calendar.specs.Calendar.{day_number, days_on, is_day, is_earlier};
ghost use Rattle.calendar.specs.Laws.{LiesThere, IsSooner};

/// A date some days on is the day whose day number is greater by so many. It is blank where no day of the years 1 to
/// 9999 has that number.
pub fn days_go_by_number()
    ensures { (days : ℤ) (parts : Parts) → IsDay parts
        → LiesThere (days_on days (Some parts)) (day_number parts +ℤ days) }
{}

/// Two days with the same day number are the same day. The sooner of two days has the lesser number.
pub fn days_are_their_numbers()
    ensures same { (p q : Parts) → IsDay p → IsDay q → day_number p ≡ day_number q → p ≡ q }
    ensures sooner { (p q : Parts) → IsDay p → IsDay q → (day_number p <ℤ day_number q) ↔ IsSooner p q }
{}

/// Of two dates one is earlier than the other, or they are the same.
pub fn dates_are_in_order()
    ensures { (a b : Option Parts) → HasDay a → HasDay b
        → (is_earlier a b ≡ true) ⊎ ((a ≡ b) ⊎ (is_earlier b a ≡ true)) }
{}

/// The calendar's days are those that pass its test.
pub fn days_are_tested()
    ensures { (parts : Parts) → (is_day parts ≡ true) ↔ IsDay parts }
{}
