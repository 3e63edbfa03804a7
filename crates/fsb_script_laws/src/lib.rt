//! What ties the reader of bench files to their writer: what is written reads back as what it was
//! written from. Nothing is done by the functions: each one's contract is a law on the words of
//! `fsb_script` in which the contracts of `read_bench` and `write_bench` are stated. The
//! must-fail edits turn definitions that the laws rest on.
#![tactic(auto)]

ghost use Rattle.std.specs.Prelude.{◌≡◌, ℕ, ◌<◌, ◌≤◌, ◌/◌, ◌%◌, ◌^◌, List, [], ◌∷◌, Ok, IsTrue, nat_lt, codes};
ghost use Rattle.std.specs.Fmt.{decimal};
ghost use Rattle.fsb_io.specs.NumberText.{hexadecimal};
ghost use Rattle.fsb_script.specs.TextWords.{decimal_of, hex_of};
ghost use Rattle.fsb_script.specs.Statements.{bytes_of, memory_of, profile_of, window_of, load_of, store_of, idle_of, transaction_of, block_of};
ghost use Rattle.fsb_script.specs.Bounds.{is_lawful_setting, is_lawful_window, is_lawful_hazard};
ghost use Rattle.fsb_script.specs.declared.plan.Window.{Window};
ghost use Rattle.fsb_access.specs.declared.access.Access.TheVariants.{Load, Store};
ghost use Rattle.fsb_access.specs.declared.access.Operand.{Operand};
ghost use Rattle.fsb_access.specs.declared.access.Setting.{Setting};
ghost use Rattle.fsb_access.specs.Access.{is_lawful_access};
ghost use Rattle.fsb_hazard.specs.declared.line.HazardLine.{HazardLine};
ghost use Rattle.fsb_hazard.specs.declared.line.HazardLine.TheVariants.{Bnr};
ghost use Rattle.fsb_script.specs.Text.{digit_text, setting_text, profile_text, window_text, access_text, idle_text, hazard_text, bench_text};
ghost use Rattle.fsb_script.specs.Plans.{PlanView};
ghost use Rattle.fsb_script.specs.Drafts.{BenchText};
ghost use Rattle.fsb_script.specs.View.{plan_view};
ghost use Rattle.std.specs.List.{list_all};
ghost use Rattle.fsb_script_laws.specs.LawfulPlans.{IsLawfulPlan, is_byte_setting};
ghost use Rattle.fsb_script_laws.specs.LineTexts.{IsLineOf, is_of_one_request};

use fsb_access::Setting;
use fsb_script::Plan;

/// Numbers read back: decimals below 10^18, hexadecimals below 2^64, and the two digits of a byte
/// of memory.
pub fn numbers_read_back()
    ensures decimals { (n : ℕ) → n < 10 ^ 18 → decimal_of (decimal n) ≡ Ok n }
    ensures hexadecimals { (n : ℕ) → n < 2 ^ 64 → hex_of (hexadecimal n) ≡ Ok n }
    ensures bytes { (n : ℕ) → n < 256 →
        bytes_of (digit_text (n / 16) ∷ digit_text (n % 16) ∷ []) ≡ Ok (n ∷ []) }
{}

/// Each line reads back, within the bounds of its numbers: memory, the profile, the bridge,
/// loads, stores, idle clocks, and hazards of a request and of a span of clocks.
pub fn lines_read_back()
    ensures memory { (s : Setting) → IsTrue (is_lawful_setting s) → IsTrue (is_byte_setting s) →
        IsLineOf (codes "mem") memory_of (setting_text s) (s.addr, s.byte ∷ []) }
    ensures profile { IsLineOf (codes "profile") profile_of (profile_text 2) 2 }
    ensures bridge { (w : Window) → IsTrue (is_lawful_window w) →
        IsLineOf (codes "bridge") window_of (window_text w) w }
    ensures loads { (size addr : ℕ) → IsTrue (is_lawful_access (Load size addr)) →
        IsLineOf (codes "ld") load_of (access_text (Load size addr)) (Load size addr) }
    ensures stores { (size addr : ℕ) (value : Operand) →
        IsTrue (is_lawful_access (Store size addr value)) →
        IsLineOf (codes "st") store_of (access_text (Store size addr value))
        (Store size addr value) }
    ensures idle_clocks { (n : ℕ) → 1 ≤ n → n ≤ 200000 →
        IsLineOf (codes "idle") idle_of (idle_text n) n }
    ensures transactions { (h : HazardLine) → IsTrue (is_of_one_request h) →
        IsTrue (is_lawful_hazard h) → IsLineOf (codes "tx") transaction_of (hazard_text h) h }
    ensures blocks { (from to : ℕ) → IsTrue (is_lawful_hazard (Bnr from to)) →
        IsLineOf (codes "bnr") block_of (hazard_text (Bnr from to)) (Bnr from to) }
{}

/// The canonical text of each lawful plan is a bench file that says this plan. So no two lawful
/// plans have one text.
pub fn canonical_text_reads_back()
    ensures same_plan { (p : PlanView) → IsLawfulPlan p → BenchText (bench_text p) p }
    ensures own_text { (p q : PlanView) → IsLawfulPlan p → IsLawfulPlan q →
        bench_text p ≡ bench_text q → p ≡ q }
{}

/// Each plan that a bench file says is lawful. So reading and writing any bench file gives a text
/// of the same plan.
pub fn plans_that_were_read_are_lawful()
    ensures lawful { (text : List ℕ) (p : PlanView) → BenchText text p → IsLawfulPlan p }
    ensures written_again { (text : List ℕ) (p : PlanView) → BenchText text p →
        BenchText (bench_text p) p }
{}

/// A byte is below 256.
fn is_byte(byte: u8)
    ensures { IsTrue (nat_lt byte 256) }
{}

/// Memory is set to bytes.
fn are_bytes(settings: &[Setting])
    ensures { IsTrue (list_all is_byte_setting settings.now) }
{
    for setting in settings {
        is_byte(setting.byte);
    }
}

/// The canonical text of every plan is a bench file that says this plan.
pub fn every_plan_reads_back(plan: &Plan)
    ensures { BenchText (bench_text (plan_view plan.now)) (plan_view plan.now) }
{
    are_bytes(plan.mem.as_slice());
}
