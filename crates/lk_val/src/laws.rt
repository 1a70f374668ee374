// Laws of the definitions that contracts cite. Each is a function that computes nothing: its clauses are the law.

ghost use Rattle.std.specs.Prelude.{◌≡◌, ◌<ℤ◌, ◌*ℤ◌, ◌≤◌, length, ℕ, ℤ, List, pos, Some, Ok, Err, FitsSigned};
ghost use Rattle.std.specs.Int.{IsGcd, w64};
ghost use Rattle.std.specs.Ordering.{int_cmp, ordering_reverse};
ghost use Rattle.std.specs.declared.cmp.Ordering.TheVariants.{Less, Equal};
ghost use Rattle.lk_val.specs.Fractions.{Fraction, IsReduced, gcd, reduced, frac_add, frac_sub, frac_mul, frac_div, frac_neg, frac_cmp, frac_of_sum};
ghost use Rattle.lk_val.specs.Numbers.{num_of, number_text};
ghost use Rattle.lk_val.specs.Decimals.{Decimal, IsDecimal, IsDecimalText, decimal_text, decimal_number};
ghost use Rattle.lk_val.specs.declared.num.NumFault.TheVariants.{NotNumber};
ghost use Rattle.lk_val.specs.Rounding.{IsRounded, rounded};
ghost use Rattle.lk_val.specs.Cells.{IsReducedCell, cell_cmp};
ghost use Rattle.lk_val.specs.declared.cell.Cell.{Cell};

/// The greatest common divisor divides both numbers, and each number that divides both divides it.
pub fn gcd_is_greatest()
    ensures { (a b : ℕ) → IsGcd a b (gcd a b) }
{}

/// Lowest terms keep the value, and two fractions in lowest terms with one value are equal.
pub fn lowest_terms_are_unique()
    ensures lowest { (n d : ℤ) → pos 0 <ℤ d → IsReduced (reduced n d) }
    ensures value { (n d : ℤ) → pos 0 <ℤ d → (reduced n d).n *ℤ d ≡ n *ℤ (reduced n d).d }
    ensures unique { (a b : Fraction) → IsReduced a → IsReduced b → a.n *ℤ b.d ≡ b.n *ℤ a.d → a ≡ b }
{}

/// The order of fractions is that of the rational numbers: of n / d and m / e by the cross products, however the
/// values are written. It is total, and only equal fractions tie.
pub fn fractions_are_ordered()
    ensures value { (n d m e : ℤ) → pos 0 <ℤ d → pos 0 <ℤ e
        → frac_cmp (reduced n d) (reduced m e) ≡ int_cmp (n *ℤ e) (m *ℤ d) }
    ensures itself { (a : Fraction) → frac_cmp a a ≡ Equal }
    ensures tied { (a b : Fraction) → IsReduced a → IsReduced b → frac_cmp a b ≡ Equal → a ≡ b }
    ensures turned { (a b : Fraction) → frac_cmp b a ≡ ordering_reverse (frac_cmp a b) }
    ensures less { (a b c : Fraction) → IsReduced a → IsReduced b → IsReduced c
        → frac_cmp a b ≡ Less → frac_cmp b c ≡ Less → frac_cmp a c ≡ Less }
{}

/// Fractions over 10,000, as numbers and sums are, compare as their counts.
pub fn fractions_of_counts_compare_as_counts()
    ensures { (a b : ℤ) → frac_cmp (frac_of_sum a) (frac_of_sum b) ≡ int_cmp a b }
{}

/// Fractions add and multiply as a field does, wherever both sides are given, and the order is the sign of the
/// difference.
pub fn fractions_form_a_field()
    ensures sum_turned { (a b : Fraction) → frac_add a b ≡ frac_add b a }
    ensures product_turned { (a b : Fraction) → frac_mul a b ≡ frac_mul b a }
    ensures sum_grouped { (a b c ab bc x y : Fraction) → IsReduced a → IsReduced b → IsReduced c
        → frac_add a b ≡ Some ab → frac_add ab c ≡ Some x
        → frac_add b c ≡ Some bc → frac_add a bc ≡ Some y → x ≡ y }
    ensures product_grouped { (a b c ab bc x y : Fraction) → IsReduced a → IsReduced b → IsReduced c
        → frac_mul a b ≡ Some ab → frac_mul ab c ≡ Some x
        → frac_mul b c ≡ Some bc → frac_mul a bc ≡ Some y → x ≡ y }
    ensures distributed { (a b c bc ab ac x y : Fraction) → IsReduced a → IsReduced b → IsReduced c
        → frac_add b c ≡ Some bc → frac_mul a bc ≡ Some x
        → frac_mul a b ≡ Some ab → frac_mul a c ≡ Some ac → frac_add ab ac ≡ Some y → x ≡ y }
    ensures difference { (a b c x : Fraction) → IsReduced a → IsReduced b
        → frac_sub a b ≡ Some c → frac_add c b ≡ Some x → x ≡ a }
    ensures quotient { (a b c x : Fraction) → IsReduced a → IsReduced b
        → frac_div a b ≡ Some c → frac_mul c b ≡ Some x → x ≡ a }
    ensures opposite { (a b x : Fraction) → IsReduced a
        → frac_neg a ≡ Some b → frac_add a b ≡ Some x → x.n ≡ pos 0 }
    ensures order { (a b c : Fraction) → IsReduced a → IsReduced b
        → frac_sub a b ≡ Some c → frac_cmp a b ≡ int_cmp c.n (pos 0) }
{}

/// A ratio is rounded to the nearest whole number, half away from zero, and no other number is that.
pub fn rounding_is_nearest()
    ensures nearest { (n d : ℤ) → pos 0 <ℤ d → IsRounded n d (rounded n d) }
    ensures only { (n d r : ℤ) → pos 0 <ℤ d → IsRounded n d r → r ≡ rounded n d }
{}

/// The order of cells is total where their fractions are in lowest terms, and only equal cells tie.
pub fn cells_are_ordered()
    ensures itself { (a : Cell) → cell_cmp a a ≡ Equal }
    ensures tied { (a b : Cell) → IsReducedCell a → IsReducedCell b → cell_cmp a b ≡ Equal → a ≡ b }
    ensures turned { (a b : Cell) → cell_cmp b a ≡ ordering_reverse (cell_cmp a b) }
    ensures less { (a b c : Cell) → IsReducedCell a → IsReducedCell b → IsReducedCell c
        → cell_cmp a b ≡ Less → cell_cmp b c ≡ Less → cell_cmp a c ≡ Less }
{}

/// A decimal reads as the number that it writes; where a digit other than 0 stands past the fourth place, or 64 bits
/// do not hold the count, the fault says so. Every other text is no number.
pub fn numbers_read_as_written()
    ensures decimal { (d : Decimal) → IsDecimal d → num_of (decimal_text d) ≡ decimal_number d }
    ensures other { (text : List ℕ) → ¬ (IsDecimalText text) → num_of text ≡ Err NotNumber }
{}

/// A number that is printed reads as it was, and no decimal of the number is shorter.
pub fn printed_numbers_read_back()
    ensures same { (count : ℤ) → FitsSigned w64 count → num_of (number_text count) ≡ Ok (record { 0 = count }) }
    ensures shortest { (d : Decimal) (count : ℤ) → IsDecimal d → decimal_number d ≡ Ok (record { 0 = count })
        → length (number_text count) ≤ length (decimal_text d) }
{}
