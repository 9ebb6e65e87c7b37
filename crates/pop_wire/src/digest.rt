// The digest of APOP.
ghost use Rattle.std.specs.Prelude.{◌≡◌};
ghost use Rattle.mail_model.specs.Plan.{apop_digest};

/// The digest by which a client shows that it knows a secret: the MD5 of the banner that it was greeted with,
/// from `<` to `>`, and the secret, joined (RFC 1939, section 7). It takes no memory.
pub fn apop_digest(banner: &[u8], secret: &[u8]) -> [u8; 16]
    ensures { result ≡ apop_digest banner.now secret.now }
{
    mail_base::apop_digest(banner, secret)
}
