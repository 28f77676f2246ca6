// "Each security has a currency, or 255 for unlisted."
ghost use Rattle.std.specs.Prelude.{◌≡◌};
ghost use Rattle.rules.specs.Words.{all};
ghost use Rattle.rules.specs.Sound.{is_code};

#[tactic(auto, unfolding(rules::specs::Sound::is_code))]
pub fn is_code(code: u8) -> bool
    ensures { result ≡ is_code code }
{
    code <= 3 || code == 255
}

pub fn codes_fit(codes: [u8; 32]) -> bool
    ensures { result ≡ all is_code codes }
{
    codes.iter().all(|code| is_code(*code))
}
