//! The lines that no operation is needed for, each with its newline. They take no memory.
ghost use Rattle.std.specs.Prelude.{◌≡◌, ◌++◌, ◌∷◌, []};
ghost use Rattle.qe_forms.specs.Reply as form;

/// The line for a text that isn't JSON.
#[tactic(auto, unfolding(serde_json::proofs::OnLiterals::serde_json_on_literals))]
pub fn not_json_line() -> &'static [u8]
    ensures { result.now ≡ form.not_json_text ++ 10 ∷ [] }
{
    b"{\"error\":{\"cause\":\"json\",\"code\":\"E3\",\"meta\":{}}}\n"
}

/// The line for a request that isn't carried out yet.
#[tactic(auto, unfolding(serde_json::proofs::OnLiterals::serde_json_on_literals))]
pub fn unbuilt_line() -> &'static [u8]
    ensures { result.now ≡ form.unbuilt_text ++ 10 ∷ [] }
{
    b"{\"error\":{\"cause\":\"unbuilt\",\"code\":\"E9\",\"meta\":{}}}\n"
}

/// The line where memory is short.
#[tactic(auto, unfolding(serde_json::proofs::OnLiterals::serde_json_on_literals))]
pub fn memory_line() -> &'static [u8]
    ensures { result.now ≡ form.memory_text ++ 10 ∷ [] }
{
    b"{\"error\":{\"cause\":\"memory\",\"code\":\"E0\",\"meta\":{}}}\n"
}
